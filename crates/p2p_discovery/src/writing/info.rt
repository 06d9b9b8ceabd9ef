//! What peers say of where they are dialed.
ghost use Rattle.std.specs.Prelude.{◌≡◌, ◌++◌, OnOk};
ghost use Rattle.std.specs.List.{flat_map};
ghost use Rattle.p2p_discovery.specs.Spelling.{spelled_ip, spelled_ingress, spelled_info};

use crate::Info;
use crate::writing::fields::{put_number, put_sized};
use p2p_address::{Ingress, IpAddr};
use p2p_base::PublicKey;
use std::alloc::AllocError;

fn put_ip(out: &mut Vec<u8>, ip: &IpAddr) -> Result<(), AllocError>
    ensures { OnOk result (out.new.items ≡ out.old.items ++ spelled_ip ip.now) }
{
    match ip {
        IpAddr::V4(bytes) => {
            out.push(4)?;
            out.extend_from_slice(bytes)
        }
        IpAddr::V6(bytes) => {
            out.push(6)?;
            out.extend_from_slice(bytes)
        }
    }
}

#[tactic(auto, unfolding(crate::specs::Spelling::spelled_ingress))]
pub(crate) fn put_ingress(out: &mut Vec<u8>, ingress: &Ingress) -> Result<(), AllocError>
    ensures { OnOk result (out.new.items ≡ out.old.items ++ spelled_ingress ingress.now) }
{
    match ingress {
        Ingress::Socket(socket) => {
            out.push(0)?;
            put_ip(out, &socket.ip)?;
            out.extend_from_slice(&socket.port.to_be_bytes())
        }
        Ingress::Dns { host, port } => {
            out.push(1)?;
            put_sized(out, host.as_str().as_bytes())?;
            out.extend_from_slice(&port.to_be_bytes())
        }
    }
}

#[tactic(auto, unfolding(crate::specs::Spelling::spelled_info))]
pub(crate) fn put_info<P: PublicKey>(out: &mut Vec<u8>, info: &Info<P>) -> Result<(), AllocError>
    ensures { OnOk result (out.new.items ≡ out.old.items ++ spelled_info P.bytes_of info.now) }
{
    put_ingress(out, &info.ingress)?;
    put_number(out, info.timestamp)?;
    let key = info.public_key.to_bytes(*out.allocator())?;
    out.extend_from_slice(key.as_slice())?;
    put_sized(out, info.signature.as_slice())
}

pub(crate) fn put_infos<P: PublicKey>(
    out: &mut Vec<u8>,
    infos: &[Info<P>],
) -> Result<(), AllocError>
    ensures { OnOk result (out.new.items ≡ out.old.items ++ flat_map (spelled_info P.bytes_of) infos.now) }
{
    for info in infos {
        put_info(out, info)?;
    }
    Ok(())
}
