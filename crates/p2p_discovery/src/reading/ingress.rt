//! Where a peer is dialed.
ghost use Rattle.std.specs.Prelude.{◌≡◌};
ghost use Rattle.p2p_discovery.specs.Reading.{Gives, ip_at, port_at, socket_at, host_at, name_at, ingress_at};

use crate::info::MAX_HOST;
use crate::reading::fields::{read_array, read_byte, read_sized};
use bytes::Bytes;
use p2p_address::{Ingress, IpAddr, SocketAddr};
use p2p_base::Text;
use p2p_wire::CodecError;
use std::alloc::Global;

#[tactic(auto, unfolding(crate::specs::Reading::ip_at))]
fn read_ip(bytes: Bytes) -> Result<(IpAddr, Bytes), CodecError>
    ensures { result ≡ ip_at bytes }
{
    let (version, bytes) = read_byte(bytes)?;
    match version {
        4 => {
            let (address, bytes) = read_array::<4>(bytes)?;
            Ok((IpAddr::V4(address), bytes))
        }
        6 => {
            let (address, bytes) = read_array::<16>(bytes)?;
            Ok((IpAddr::V6(address), bytes))
        }
        version => Err(CodecError::InvalidEnum(version)),
    }
}

#[tactic(auto, unfolding(crate::specs::Reading::port_at))]
fn read_port(bytes: Bytes) -> Result<(u16, Bytes), CodecError>
    ensures { result ≡ port_at bytes }
{
    let (port, bytes) = read_array::<2>(bytes)?;
    Ok((u16::from_be_bytes(port), bytes))
}

#[tactic(auto, unfolding(crate::specs::Reading::socket_at))]
fn read_socket(bytes: Bytes) -> Result<(Ingress, Bytes), CodecError>
    ensures { result ≡ socket_at bytes }
{
    let (ip, bytes) = read_ip(bytes)?;
    let (port, bytes) = read_port(bytes)?;
    Ok((Ingress::Socket(SocketAddr { ip, port }), bytes))
}

#[tactic(auto, unfolding(crate::specs::Reading::host_at))]
fn read_host(alloc: Global, bytes: Bytes) -> Result<(Text, Bytes), CodecError>
    ensures { Gives result (host_at bytes) }
{
    let (host, bytes) = read_sized(alloc, bytes, MAX_HOST)?;
    match String::from_utf8(host.into_inner()) {
        Ok(host) => Ok((Text::new(host), bytes)),
        Err(_) => Err(CodecError::InvalidEnum(1)),
    }
}

#[tactic(auto, unfolding(crate::specs::Reading::name_at))]
fn read_name(alloc: Global, bytes: Bytes) -> Result<(Ingress, Bytes), CodecError>
    ensures { Gives result (name_at bytes) }
{
    let (host, bytes) = read_host(alloc, bytes)?;
    let (port, bytes) = read_port(bytes)?;
    Ok((Ingress::Dns { host, port }, bytes))
}

#[tactic(auto, unfolding(crate::specs::Reading::ingress_at))]
pub(crate) fn read_ingress(alloc: Global, bytes: Bytes) -> Result<(Ingress, Bytes), CodecError>
    ensures { Gives result (ingress_at bytes) }
{
    let (kind, bytes) = read_byte(bytes)?;
    match kind {
        0 => read_socket(bytes),
        1 => read_name(alloc, bytes),
        kind => Err(CodecError::InvalidEnum(kind)),
    }
}
