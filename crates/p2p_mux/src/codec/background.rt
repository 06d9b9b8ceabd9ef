//! `WrappedBackgroundReceiver`, which decodes messages and forwards them.
ghost use Rattle.std.specs.Prelude.{◌≡◌, true, false, IfOk, IfErr, OnOk, OnErr, IsErr};
ghost use Rattle.p2p_mux.specs.Background.{nothing_forwarded, decoded_as};
ghost use Rattle.p2p_mux.specs.BackgroundSteps.{found, lent_of, IsStepOf, IsDecodedFrom};

use crate::codec::{BackgroundReceiver, Codec, Stepped};
use p2p_base::NoRoom;
use p2p_flow::{Blocker, Message, Polled};
use p2p_flow_senders::{Receiver, block};
use p2p_wire::CodecError;
use std::alloc::{AllocError, Global};
use std::marker::Model;

/// Decodes the messages of a receiver and forwards them to a `BackgroundReceiver`. It asks that the sender of a message
/// that is no value be blocked.
///
/// Ports `WrappedBackgroundReceiver` of commonware-p2p, whose `run` decodes in other tasks.
#[derive(Drop)]
pub struct WrappedBackgroundReceiver<B, R, V: Codec> {
    receiver: R,
    config: V::Cfg,
    blocker: B,
    has_failed: bool,
}

impl<B, R, V: Codec> Model for WrappedBackgroundReceiver<B, R, V> {
    ghost use Rattle.p2p_mux.specs.Background.{Decoding};

    ghost Value = { Decoding B R V.Cfg };

    ghost view = { λ r. record {
      receiver = r.receiver;
      config = r.config;
      blocker = r.blocker;
      has_failed = r.has_failed;
    } };
}

impl<B, R, V> WrappedBackgroundReceiver<B, R, V>
where
    B: Blocker,
    R: Receiver<PublicKey = B::PublicKey>,
    V: Codec,
    R::Error: Drop,
{
    /// Decodes the messages of a receiver by this configuration. The queue of the `BackgroundReceiver` holds as many
    /// messages as the receiver does.
    ///
    /// `NoRoom` hands all three back where memory runs out.
    ///
    /// Ports `WrappedBackgroundReceiver::new` of commonware-p2p.
    pub fn new(
        alloc: Global,
        receiver: R,
        config: V::Cfg,
        blocker: B,
    ) -> Result<
        (
            WrappedBackgroundReceiver<B, R, V>,
            BackgroundReceiver<B::PublicKey, V>,
        ),
        NoRoom<(R, V::Cfg, B)>,
    >
        ensures step { IfOk result (λ r. r.0
            ≡ record { receiver = receiver; config = config; blocker = blocker; has_failed = false }) }
        ensures queue { IfOk result (λ r. r.1 ≡ nothing_forwarded (R.places receiver)) }
        ensures no_room { IfErr result (λ e. e.0 ≡ (receiver, config, blocker)) }
    {
        match BackgroundReceiver::new(alloc, receiver.capacity()) {
            Ok(out) => Ok((
                WrappedBackgroundReceiver {
                    receiver,
                    config,
                    blocker,
                    has_failed: false,
                },
                out,
            )),
            Err(_) => Err(NoRoom((receiver, config, blocker))),
        }
    }

    /// Takes the oldest message of the receiver and decodes it. A value is forwarded, or dropped where the queue is
    /// full; of a message that is none it is asked that the sender be blocked. What became of it is answered: `Idle`
    /// where none waits, and `Ended` where the receiver had no more to give, in this call or before.
    ///
    /// `Err` only where memory runs out: the message that was taken is lost then, nobody is blocked for it, and the
    /// queue is as it was. Each later step answers so, and takes nothing.
    ///
    /// Ports a turn of `WrappedBackgroundReceiver::run` of commonware-p2p.
    pub fn step(
        &mut self,
        alloc: Global,
        way: &mut R::Way,
        blocker_way: &mut B::Way,
        out: &mut BackgroundReceiver<B::PublicKey, V>,
    ) -> Result<Stepped<B::PublicKey>, AllocError>
        requires receiver { R.serves self.old.receiver way.old }
        requires blocker { B.serves self.old.blocker blocker_way.old }
        ensures step { IsStepOf (found V.decoding R.received R.after_recv B.told B.after_block self.old
            (lent_of out.old way.old blocker_way.old)) result (lent_of out.new way.new blocker_way.new) }
        ensures same { OnOk result (self.new ≡ self.old) }
        ensures memory { OnErr result (self.new ≡ record self.old { has_failed = true }) }
        ensures failed { self.old.has_failed ≡ true → IsErr result }
        ensures receiver { R.serves self.new.receiver way.new }
        ensures blocker { B.serves self.new.blocker blocker_way.new }
    {
        match self.work(alloc, way, blocker_way, out) {
            Ok(stepped) => Ok(stepped),
            Err(_) => {
                self.has_failed = true;
                Err(AllocError)
            }
        }
    }

    // What a step does. It answers want of memory after one that found none.
    fn work(
        &mut self,
        alloc: Global,
        way: &mut R::Way,
        blocker_way: &mut B::Way,
        out: &mut BackgroundReceiver<B::PublicKey, V>,
    ) -> Result<Stepped<B::PublicKey>, AllocError>
        requires receiver { R.serves self.old.receiver way.old }
        requires blocker { B.serves self.old.blocker blocker_way.old }
        ensures step { IsStepOf (found V.decoding R.received R.after_recv B.told B.after_block self.old
            (lent_of out.old way.old blocker_way.old)) result (lent_of out.new way.new blocker_way.new) }
        ensures same { self.new ≡ self.old }
        ensures failed { self.old.has_failed ≡ true → IsErr result }
        ensures receiver { R.serves self.new.receiver way.new }
        ensures blocker { B.serves self.new.blocker blocker_way.new }
    {
        if self.has_failed {
            return Err(AllocError);
        }
        if out.has_ended() {
            return Ok(Stepped::Ended);
        }
        match self.receiver.poll_recv(way) {
            Ok(Polled::Ready(message)) => {
                decode::<B, V>(
                    alloc,
                    &self.config,
                    &mut self.blocker,
                    message,
                    blocker_way,
                    out,
                )
            }
            Ok(Polled::Pending) => Ok(Stepped::Idle),
            Err(_) => {
                out.end();
                Ok(Stepped::Ended)
            }
        }
    }
}

// Decodes a message. A value is forwarded, and otherwise its sender is blocked.
fn decode<B: Blocker, V: Codec>(
    alloc: Global,
    config: &V::Cfg,
    blocker: &mut B,
    message: Message<B::PublicKey>,
    blocker_way: &mut B::Way,
    out: &mut BackgroundReceiver<B::PublicKey, V>,
) -> Result<Stepped<B::PublicKey>, AllocError>
    requires { B.serves blocker.old blocker_way.old }
    ensures decoded { IsDecodedFrom (decoded_as message.0 (V.decoding config.now message.1)
        (B.told blocker.old blocker_way.old) (B.after_block blocker.old blocker_way.old)
        out.old blocker_way.old) out.old blocker_way.old result out.new blocker_way.new }
    ensures same { blocker.new ≡ blocker.old }
    ensures serves { B.serves blocker.new blocker_way.new }
{
    let (peer, bytes) = message;
    match V::decode(alloc, bytes, config) {
        Ok(value) => out.forward(peer, value),
        Err(CodecError::Memory) => Err(AllocError),
        Err(error) => {
            let told = block!(blocker, alloc, blocker_way, peer, error)?;
            Ok(Stepped::Blocked { peer, error, told })
        }
    }
}
