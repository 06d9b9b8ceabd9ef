//! `BackupReceiver`, which receives the messages of subchannels without a route.
ghost use Rattle.std.specs.Prelude.{◌≡◌};
ghost use Rattle.p2p_mux.specs.Received.{backed_up, without_backed_up};

use crate::{Error, MuxQueues};
use p2p_flow::{Channel, Message, Polled};
use std::marker::PhantomData;

/// Receives the messages whose subchannel has no route, each with its subchannel, from the queues of its muxer, which
/// it is lent.
///
/// In commonware-p2p this is the receiver of a channel.
#[derive(Drop)]
pub struct BackupReceiver<P> {
    of: PhantomData<P>,
}

impl<P: Drop> BackupReceiver<P> {
    // The receiver of a muxer's backup.
    pub(crate) fn new() -> BackupReceiver<P> {
        BackupReceiver { of: PhantomData }
    }

    /// Takes the oldest message, without its prefix, with its subchannel and the key of its sender. `Pending` where
    /// none waits yet.
    ///
    /// `Closed` comes exactly where the muxer has ended and none waits.
    pub fn poll_recv(
        &mut self,
        queues: &mut MuxQueues<P>,
    ) -> Result<Polled<(Channel, Message<P>)>, Error>
        ensures value { result ≡ backed_up queues.old }
        ensures after { queues.new ≡ without_backed_up queues.old }
    {
        let may_come = !queues.has_ended();
        match queues.take_backed_up() {
            Some(message) => Ok(Polled::Ready(message)),
            None if may_come => Ok(Polled::Pending),
            None => Err(Error::Closed),
        }
    }
}
