//! Emptying a mailbox.
ghost use Rattle.std.specs.Prelude.{◌≡◌, IfOk};

use crate::numbered::Numbered;
use p2p_base::Mailbox;
use std::alloc::{AllocError, Global};

/// All messages of a mailbox, in order.
pub(crate) fn drained(
    alloc: Global,
    mailbox: Mailbox<Numbered>,
) -> Result<Vec<Numbered>, AllocError>
    ensures { IfOk result (λ v. v.items ≡ mailbox.items) }
{
    let mut mailbox = mailbox;
    let mut messages = Vec::new(alloc);
    while let Some(message) = mailbox.take() {
        messages.push(message)?;
    }
    Ok(messages)
}
