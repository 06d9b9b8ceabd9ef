//! Copies of messages, which a step answers while the message itself is delivered or stays held.
ghost use Rattle.std.specs.Prelude.{◌≡◌, IfOk};
ghost use Rattle.std.specs.Option.{option_map};

use p2p_flow_connection::Inbox;
use p2p_wire::Data;
use std::alloc::AllocError;

/// An equal message. `Err` only where memory runs out.
pub fn copy_of(message: &Data) -> Result<Data, AllocError>
    ensures { IfOk result (λ m. m ≡ message.now) }
{
    Ok(Data {
        channel: message.channel,
        message: message.message.clone()?,
    })
}

/// An equal message to the one that an inbox holds. `None` exactly where it holds none. `Err` only where memory runs out.
pub fn held_copy<P: Drop>(inbox: &Inbox<P>) -> Result<Option<Data>, AllocError>
    ensures { IfOk result (λ m. m ≡ option_map (λ h. h.1) inbox.now.held) }
{
    match inbox.held() {
        Some(held) => Ok(Some(copy_of(&held.1)?)),
        None => Ok(None),
    }
}
