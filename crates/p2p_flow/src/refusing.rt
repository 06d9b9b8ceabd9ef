//! `Refusing`, a message that no full mailbox takes.
ghost use Rattle.std.specs.Prelude.{◌≡◌, IfOk, IfErr, OnOk, OnErr, IsTrue};
ghost use Rattle.p2p_base.specs.Queue.{oldest, without_oldest, enqueue_answer, enqueued, keeps};
ghost use Rattle.p2p_base.specs.declared.policy.Keep.TheVariants as keep;

use p2p_base::{Keep, Mailbox, NoRoom, Sent, UnreliablePolicy};
use std::marker::Model;

/// A message that no full mailbox takes, whatever its type says of itself.
#[derive(Drop)]
pub struct Refusing<T> {
    message: T,
}

impl<T> Model for Refusing<T> {
    ghost Value = { T };

    ghost coded = { T.code };

    ghost view = { λ r. r.message };
}

impl<T: Drop> UnreliablePolicy for Refusing<T> {
    ghost use Rattle.p2p_base.specs.declared.policy.Keep.TheVariants as keep;

    ghost keep_of = { λ _. keep.Refuse };

    fn keep(&self) -> Keep {
        Keep::Refuse
    }
}

// The message without its policy.
fn plain<T>(message: Option<Refusing<T>>) -> Option<T>
    ensures { result ≡ message }
{
    match message {
        Some(Refusing { message }) => Some(message),
        None => None,
    }
}

/// Removes the oldest message. `None` exactly where none waits.
pub fn take<T>(lane: &mut Mailbox<Refusing<T>>) -> Option<T>
    ensures value { result ≡ oldest lane.old }
    ensures after { lane.new ≡ without_oldest lane.old }
{
    plain(lane.take())
}

/// Puts a message last, where there is a place. A closed mailbox hands it back first, and a full one refuses it.
///
/// `NoRoom` hands the message back where there is no memory for it, and the mailbox stays as it was.
pub fn put<T: Drop>(lane: &mut Mailbox<Refusing<T>>, message: T) -> Result<Sent<T>, NoRoom<T>>
    ensures answer { IfOk result (λ s. s ≡ enqueue_answer keep.Refuse lane.old message) }
    ensures after { OnOk result (lane.new ≡ enqueued keep.Refuse lane.old message) }
    ensures no_room { IfErr result (λ e. (e.0 ≡ message) × (lane.new ≡ lane.old)) }
    ensures memory { OnErr result (IsTrue (keeps keep.Refuse lane.old)) }
{
    match lane.enqueue(Refusing { message }) {
        Ok(Sent::Ok) => Ok(Sent::Ok),
        Ok(Sent::Backoff) => Ok(Sent::Backoff),
        Ok(Sent::Rejected(Refusing { message })) => Ok(Sent::Rejected(message)),
        Ok(Sent::Closed(Refusing { message })) => Ok(Sent::Closed(message)),
        Err(NoRoom(Refusing { message })) => Err(NoRoom(message)),
    }
}
