//! Payloads.
ghost use Rattle.std.specs.Prelude.{◌≡◌, ◌++◌, OnOk};
ghost use Rattle.p2p_discovery.specs.Spelling.{spelled_data, spelled};

use crate::Payload;
use crate::payload::{BIT_VEC_PREFIX, GREETING_PREFIX, PEERS_PREFIX};
use crate::writing::bits::put_bit_vec;
use crate::writing::fields::{put_number, put_sized};
use crate::writing::info::{put_info, put_infos};
use p2p_base::PublicKey;
use p2p_wire::{DATA_PREFIX, Data};
use std::alloc::AllocError;

fn put_data(out: &mut Vec<u8>, sent: &Data) -> Result<(), AllocError>
    ensures { OnOk result (out.new.items ≡ out.old.items ++ spelled_data sent.now) }
{
    out.push(DATA_PREFIX)?;
    put_number(out, sent.channel)?;
    put_sized(out, sent.message.as_slice())
}

#[tactic(auto, unfolding(crate::specs::Spelling::spelled))]
pub(crate) fn put_payload<P: PublicKey>(
    out: &mut Vec<u8>,
    payload: &Payload<P>,
) -> Result<(), AllocError>
    ensures { OnOk result (out.new.items ≡ out.old.items ++ spelled P.bytes_of payload.now) }
{
    match payload {
        Payload::Data(data) => put_data(out, data),
        Payload::Greeting(info) => {
            out.push(GREETING_PREFIX)?;
            put_info(out, info)
        }
        Payload::BitVec(bit_vec) => {
            out.push(BIT_VEC_PREFIX)?;
            put_bit_vec(out, bit_vec)
        }
        Payload::Peers(infos) => {
            out.push(PEERS_PREFIX)?;
            put_number(out, infos.len() as u64)?;
            put_infos(out, infos.as_slice())
        }
    }
}
