//! `Sender`, which checks and sends in one call.
ghost use Rattle.std.specs.Prelude.{◌≡◌, [], ℕ, List as Seq, None, cond, IfOk, IfErr, OnOk, OnErr};
ghost use Rattle.p2p_base.specs.Outcome.{is_accepted};
ghost use Rattle.p2p_flow_senders.specs.SenderAt.{sender_at};
ghost use Rattle.p2p_flow_senders.specs.Senders.{IsSendOf};
ghost use Rattle.p2p_flow_senders.specs.Sending.{IsCause, OnMemory, sent_to};

use crate::{CheckedSender, LimitedSender, SendError};
use bytes::Bytes;
use p2p_flow::Recipients;
use std::alloc::Global;

/// Sends messages as a quota for each peer admits them: a check, and then a send to whom it admits.
///
/// Ports `Sender` of commonware-p2p.
pub trait Sender: LimitedSender {
    /// Checks the recipients at the moment `now`, in nanoseconds, and sends the message to those that are admitted. Gives them in
    /// order: none where the check is refused, the router refuses the content or has ended, or the list is empty.
    ///
    /// The cells of a check that passed stay taken, whatever becomes of the message. Where memory runs out in the check, none is
    /// taken.
    final fn send(
        &self,
        alloc: Global,
        way: &mut Self::Way,
        recipients: Recipients<Self::PublicKey>,
        message: Bytes,
        priority: bool,
        now: u64,
    ) -> Result<Vec<Self::PublicKey>, SendError>
        requires { Self.serves self.now way.old }
        ensures send { IsSendOf (sender_at Self.PublicKey.cmp Self.Checked.checked Self.LimitedSender self.now)
            (λ told check r. r.items ≡ sent_to told check) way.old recipients message priority now result way.new }
        ensures unsent { OnMemory result (Self.asked self.now way.old recipients way.new) }
    {
        match self.check(alloc, way, recipients, now)? {
            Ok(checked) => send_to(self, alloc, way, checked, message, priority),
            Err(_) => Ok(Vec::new(alloc)),
        }
    }
}

// Sends a message to those whom a check admitted, and gives them where it is accepted.
fn send_to<S: LimitedSender>(
    sender: &S,
    alloc: Global,
    way: &mut S::Way,
    checked: S::Checked,
    message: Bytes,
    priority: bool,
) -> Result<Vec<S::PublicKey>, SendError>
    requires serves { S.serves sender.now way.old }
    requires gave { S.gave sender.now checked }
    ensures sent { IfOk result (λ r. r.items ≡ cond
        (is_accepted (S.told sender.now way.old (S.Checked.checked checked)
        (S.content sender.now checked message) priority))
        (S.Checked.checked checked) []) }
    ensures fits { OnOk result (S.refusal sender.now checked message ≡ None) }
    ensures refused { IfErr result (λ e. IsCause (S.refusal sender.now checked message) e) }
    ensures handed { OnOk result (S.handed sender.now way.old (S.Checked.checked checked)
        (S.content sender.now checked message) priority way.new) }
    ensures unchanged { OnErr result (way.new ≡ way.old) }
    ensures stands { (past : S.PublicKey → Seq ℕ) (latest : ℕ) → S.stands sender.now way.old past latest →
        S.stands sender.now way.new past latest }
    ensures rate { S.rate sender.now way.new ≡ S.rate sender.now way.old }
    ensures serves { S.serves sender.now way.new }
{
    let keys = Vec::from_slice(alloc, checked.recipients())?;
    let told = sender.send_checked(alloc, way, checked, message, priority)?;
    if told.accepted() {
        Ok(keys)
    } else {
        Ok(Vec::new(alloc))
    }
}
