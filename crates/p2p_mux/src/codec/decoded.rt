//! `BackgroundReceiver`, which receives what was decoded.
ghost use Rattle.std.specs.Prelude.{◌≡◌, ◌≤◌, IfOk, OnOk, OnErr};
ghost use Rattle.p2p_base.specs.Queue.{oldest, enqueue_answer};
ghost use Rattle.p2p_base.specs.declared.policy.Keep.TheVariants as keep;
ghost use Rattle.p2p_flow.specs.Subscribed.{next_item};
ghost use Rattle.p2p_mux.specs.Background.{nothing_forwarded, with_forwarded, without_forwarded, ended_forwarded, forwarded_as};

use crate::codec::Stepped;
use p2p_base::{Mailbox, Sent};
use p2p_flow::{Ended, Polled, Refusing, refusing};
use std::alloc::{AllocError, Global};
use std::marker::Model;

/// Receives the messages that a background receiver decoded, each with the key of its sender.
///
/// It keeps their queue, which a step of the background receiver is lent.
///
/// Ports `BackgroundReceiver` of commonware-p2p.
#[derive(Drop)]
pub struct BackgroundReceiver<P, V> {
    messages: Mailbox<Refusing<(P, V)>>,
    ended: bool,
}

impl<P, V> Model for BackgroundReceiver<P, V> {
    ghost use Rattle.p2p_mux.specs.Background.{Forwarded};

    ghost Value = { Forwarded P V };

    ghost view = { λ r. record { messages = r.messages; ended = r.ended } };
}

impl<P: Copy, V: Drop> BackgroundReceiver<P, V> {
    // A receiver whose queue has so many places.
    pub(crate) fn new(alloc: Global, places: usize) -> Result<BackgroundReceiver<P, V>, AllocError>
        requires { 1 ≤ places }
        ensures { IfOk result (λ r. r ≡ nothing_forwarded places) }
    {
        let messages = Mailbox::new(alloc, places)?;
        Ok(BackgroundReceiver {
            messages,
            ended: false,
        })
    }

    /// Takes the oldest message that waits. `Pending` where none waits yet.
    ///
    /// `Ended` comes exactly where the background receiver has ended and none waits.
    ///
    /// Ports `BackgroundReceiver::recv` of commonware-p2p.
    pub fn poll_recv(&mut self) -> Result<Polled<(P, V)>, Ended>
        ensures value { result ≡ next_item self.old.ended (oldest self.old.messages) }
        ensures after { self.new ≡ without_forwarded self.old }
    {
        match refusing::take(&mut self.messages) {
            Some(message) => Ok(Polled::Ready(message)),
            None if self.ended => Err(Ended),
            None => Ok(Polled::Pending),
        }
    }

    /// Whether the background receiver has ended.
    pub fn has_ended(&self) -> bool
        ensures { result ≡ self.now.ended }
    {
        self.ended
    }

    // Tells that the background receiver has ended.
    pub(crate) fn end(&mut self)
        ensures { self.new ≡ ended_forwarded self.old }
    {
        self.ended = true;
    }

    // Puts a decoded message last. A full queue drops it.
    pub(crate) fn forward(&mut self, peer: P, value: V) -> Result<Stepped<P>, AllocError>
        ensures answer { IfOk result (λ s. s
            ≡ forwarded_as peer (enqueue_answer keep.Refuse self.old.messages (peer, value))) }
        ensures after { OnOk result (self.new ≡ with_forwarded self.old (peer, value)) }
        ensures memory { OnErr result (self.new ≡ self.old) }
    {
        match refusing::put(&mut self.messages, (peer, value)) {
            Ok(Sent::Ok) => Ok(Stepped::Forwarded { peer }),
            Ok(Sent::Backoff) => Ok(Stepped::Forwarded { peer }),
            Ok(Sent::Rejected(_)) => Ok(Stepped::Dropped { peer }),
            Ok(Sent::Closed(_)) => Ok(Stepped::Dropped { peer }),
            Err(_) => Err(AllocError),
        }
    }
}
