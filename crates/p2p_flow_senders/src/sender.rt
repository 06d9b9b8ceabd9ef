//! The traits of senders.
ghost use Rattle.std.specs.Prelude.{◌≡◌, ℕ, Bool, List as Seq, Option, None, IfOk, IfErr, OnOk, OnErr};
ghost use Rattle.p2p_base.specs.declared.outcome.Unreliable.{Unreliable as Answer};
ghost use Rattle.p2p_runtime.specs.QuotaLaw.{Rate};
ghost use Rattle.p2p_flow.specs.declared.plain.Recipients.{Recipients as Whom};
ghost use Rattle.p2p_flow_senders.specs.Senders.{sends, IsCheckOf, IsSendCheckedOf};
ghost use Rattle.p2p_flow_senders.specs.Sending.{IsCause};
ghost use Rattle.p2p_flow_senders.specs.declared.send_error.SendError.{SendError as Refusal};

use crate::SendError;
use bytes::Bytes;
use p2p_base::{PublicKey, Unreliable};
use p2p_flow::Recipients;
use std::alloc::{AllocError, Global};

/// Sends messages without a quota.
///
/// It is a small name: what its copies share stands in its way.
///
/// Ports `UnlimitedSender` of commonware-p2p.
pub trait UnlimitedSender: Copy {
    /// The names of peers.
    type PublicKey;

    /// Where messages go.
    type Way;

    // The way is one in which this value was made.
    ghost serves: { Self → Self.Way → Type 0 };

    // Why a message is refused, if it is.
    ghost refusal: { Self → Seq ℕ → Option Refusal };

    // What is told of content for these recipients.
    ghost told: { Self → Self.Way → Whom Self.PublicKey → Seq ℕ → Bool → Answer };

    // The way after content was handed in.
    ghost after_send: { Self → Self.Way → Whom Self.PublicKey → Seq ℕ → Bool → Self.Way };

    /// Hands in a message for its recipients. Where it is refused, or there is no memory, nothing is handed in.
    fn send(
        &self,
        alloc: Global,
        way: &mut Self::Way,
        recipients: Recipients<Self::PublicKey>,
        message: Bytes,
        priority: bool,
    ) -> Result<Unreliable, SendError>
        requires { serves self.now way.old }
        ensures answer { IfOk result (λ u. u ≡ told self.now way.old recipients message priority) }
        ensures fits { OnOk result (refusal self.now message ≡ None) }
        ensures refused { IfErr result (λ e. IsCause (refusal self.now message) e) }
        ensures after { OnOk result (way.new ≡ after_send self.now way.old recipients message priority) }
        ensures unchanged { OnErr result (way.new ≡ way.old) }
        ensures serves { serves self.now way.new };
}

/// The recipients that a check admitted, which a message may be sent to once.
///
/// Ports `CheckedSender` of commonware-p2p; the message is sent by `LimitedSender::send_checked`.
pub trait CheckedSender: Drop {
    /// The names of peers.
    type PublicKey;

    // The recipients that were admitted.
    ghost checked: { Self → Seq Self.PublicKey };

    /// The recipients that were admitted, in order.
    fn recipients(&self) -> &[Self::PublicKey]
        ensures { result.now ≡ checked self.now };
}

/// Sends messages as a quota for each peer admits them.
///
/// It is a small name: what its copies share, its limiter among them, stands in its way.
///
/// Ports `LimitedSender` of commonware-p2p.
pub trait LimitedSender: Copy {
    /// The names of peers.
    type PublicKey: PublicKey;

    /// Where messages go, and what is kept of admissions.
    type Way;

    /// What a check gives.
    type Checked: CheckedSender<PublicKey = Self::PublicKey>;

    // The way is one in which this value was made.
    ghost serves: { Self → Self.Way → Type 0 };

    // A copy of this value gave the checked one.
    ghost gave: { Self → Self.Checked → Type 0 };

    // The quota of each peer.
    ghost rate: { Self → Self.Way → Rate };

    // What is kept stands for these admissions of each peer, and for the latest moment handed in.
    ghost stands: { Self → Self.Way → (Self.PublicKey → Seq ℕ) → ℕ → Type 0 };

    // The entries that are tested for these recipients.
    ghost offered: { Self → Self.Way → Whom Self.PublicKey → Seq Self.PublicKey };

    // Why a message for these is refused, if it is.
    ghost refusal: { Self → Self.Checked → Seq ℕ → Option Refusal };

    // The same of what a check gives.
    ghost due: { Self → Seq ℕ → Option Refusal };

    // What is handed in of a message for these: the message itself, or with a prefix.
    ghost content: { Self → Self.Checked → Seq ℕ → Seq ℕ };

    // The same of what a check gives.
    ghost content_due: { Self → Seq ℕ → Seq ℕ };

    // What is told of content for these keys.
    ghost told: { Self → Self.Way → Seq Self.PublicKey → Seq ℕ → Bool → Answer };

    // The second way is what a check of these recipients leaves of the first, but for admissions.
    ghost asked: { Self → Self.Way → Whom Self.PublicKey → Self.Way → Type 0 };

    // The second way is the first once content for these keys was handed in, and nothing else.
    ghost handed: { Self → Self.Way → Seq Self.PublicKey → Seq ℕ → Bool → Self.Way → Type 0 };

    // The same after a check of these recipients.
    ghost told_after: { Self → Self.Way → Whom Self.PublicKey → Seq Self.PublicKey → Seq ℕ → Bool → Answer };

    /// Tests each recipient at the moment `now`, in nanoseconds, in order and each after the ones before it, and takes one cell for
    /// each that is admitted; a key that stands twice is tested twice. For all peers it first takes a list of them that waits, and
    /// tests those that are known then. An empty list passes. Where every entry of another list is refused, the inner `Err` holds
    /// the latest moment from which one of them passes.
    ///
    /// The outer `Err` is want of memory: no cell is taken then.
    fn check(
        &self,
        alloc: Global,
        way: &mut Self::Way,
        recipients: Recipients<Self::PublicKey>,
        now: u64,
    ) -> Result<Result<Self::Checked, u128>, AllocError>
        requires { serves self.now way.old }
        ensures { IsCheckOf (sends Self.PublicKey.cmp Self.Checked.checked (serves self.now) (gave self.now)
            (rate self.now) (stands self.now) (offered self.now) (refusal self.now) (due self.now) (content self.now)
            (content_due self.now) (told self.now) (asked self.now) (handed self.now) (told_after self.now))
            way.old recipients now result way.new };

    /// Sends a message to the recipients that a check admitted; their cells stay taken. Where it is refused, or there is no memory,
    /// nothing is handed in.
    fn send_checked(
        &self,
        alloc: Global,
        way: &mut Self::Way,
        checked: Self::Checked,
        message: Bytes,
        priority: bool,
    ) -> Result<Unreliable, SendError>
        requires serves { serves self.now way.old }
        requires gave { gave self.now checked }
        ensures { IsSendCheckedOf (sends Self.PublicKey.cmp Self.Checked.checked (serves self.now) (gave self.now)
            (rate self.now) (stands self.now) (offered self.now) (refusal self.now) (due self.now) (content self.now)
            (content_due self.now) (told self.now) (asked self.now) (handed self.now) (told_after self.now))
            way.old checked message priority result way.new };
}
