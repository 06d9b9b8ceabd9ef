//! `WrappedReceiver`, which receives values, and `wrap`.
ghost use Rattle.std.specs.Prelude.{◌≡◌};
ghost use Rattle.p2p_mux.specs.Decoding.{IsReceived};

use crate::codec::{Codec, WrappedSender};
use p2p_flow::Polled;
use p2p_flow_senders::{LimitedSender, Receiver};
use p2p_wire::CodecError;
use std::alloc::Global;
use std::marker::Model;

/// The key of a sender, and what its message means.
///
/// Ports `WrappedMessage` of commonware-p2p.
pub type WrappedMessage<P, V> = (P, Result<V, CodecError>);

/// Receives values: the messages of a receiver, read by a codec.
///
/// Ports `WrappedReceiver` of commonware-p2p.
#[derive(Drop)]
pub struct WrappedReceiver<R, V: Codec> {
    config: V::Cfg,
    receiver: R,
}

impl<R, V: Codec> Model for WrappedReceiver<R, V> {
    ghost use Rattle.p2p_mux.specs.Decoding.{Reading};

    ghost Value = { Reading R V.Cfg };

    ghost view = { λ r. record { receiver = r.receiver; config = r.config } };
}

impl<R: Receiver, V: Codec> WrappedReceiver<R, V> {
    /// Receives from a receiver, and reads by this configuration.
    ///
    /// Ports `WrappedReceiver::new` of commonware-p2p.
    pub fn new(config: V::Cfg, receiver: R) -> WrappedReceiver<R, V>
        ensures { result ≡ record { receiver = receiver; config = config } }
    {
        WrappedReceiver { config, receiver }
    }

    /// Takes the oldest message, with the key of its sender: a value, or why its bytes are none. `Pending` where none
    /// waits yet, and the receiver's error where it has no more.
    ///
    /// Where memory runs out the message is taken, and what it means is answered by `Memory`.
    ///
    /// Ports `WrappedReceiver::recv` of commonware-p2p.
    pub fn poll_recv(
        &mut self,
        alloc: Global,
        way: &mut R::Way,
    ) -> Result<Polled<WrappedMessage<R::PublicKey, V>>, R::Error>
        requires { R.serves self.old.receiver way.old }
        ensures value { IsReceived (V.decoding self.old.config) (R.received self.old.receiver way.old) result }
        ensures after { way.new ≡ R.after_recv self.old.receiver way.old }
        ensures same { self.new ≡ self.old }
        ensures serves { R.serves self.new.receiver way.new }
    {
        match self.receiver.poll_recv(way) {
            Ok(Polled::Ready((peer, bytes))) => {
                Ok(Polled::Ready((peer, V::decode(alloc, bytes, &self.config))))
            }
            Ok(Polled::Pending) => Ok(Polled::Pending),
            Err(error) => Err(error),
        }
    }
}

/// A sender and a receiver of values, over a sender and a receiver.
///
/// Ports `wrap` of commonware-p2p.
pub fn wrap<S: LimitedSender, R: Receiver, V: Codec>(
    config: V::Cfg,
    sender: S,
    receiver: R,
) -> (WrappedSender<S, V>, WrappedReceiver<R, V>)
    ensures sender { result.0 ≡ sender }
    ensures receiver { result.1 ≡ record { receiver = receiver; config = config } }
{
    (
        WrappedSender::new(sender),
        WrappedReceiver::new(config, receiver),
    )
}
