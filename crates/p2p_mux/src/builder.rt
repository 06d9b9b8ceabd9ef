//! `Builder`, and the four builders of a muxer.
ghost use Rattle.std.specs.Prelude.{◌≡◌, IfOk, IfErr, OnOk, OnErr};
ghost use Rattle.p2p_mux.specs.Built.{plain_building, with_backup_of};

use crate::muxer::muxer_of;
use crate::{BackupReceiver, GlobalSender, MuxHandle, MuxQueues, Muxer};
use p2p_base::{Mailbox, NoRoom};
use p2p_flow_senders::{LimitedSender, Receiver};
use std::alloc::{AllocError, Global};
use std::marker::Model;

/// Builds what it was set to.
///
/// Ports `Builder` of commonware-p2p.
pub trait Builder {
    /// What is built.
    type Output;

    // This is built of the builder.
    ghost builds: { Self → Self.Output → Type 0 };

    /// Builds it. It takes no memory.
    fn build(self) -> Self::Output
        ensures { builds self result };
}

// What each of the builders has.
#[derive(Drop)]
struct Parts<P, S, R> {
    muxer: Muxer<S, R>,
    handle: MuxHandle<S>,
    queues: MuxQueues<P>,
}

/// Builds a muxer.
///
/// Ports `MuxerBuilder` of commonware-p2p.
#[derive(Drop)]
pub struct MuxerBuilder<P, S, R> {
    parts: Parts<P, S, R>,
}

/// Builds a muxer with a backup.
///
/// Ports `MuxerBuilderWithBackup` of commonware-p2p.
#[derive(Drop)]
pub struct MuxerBuilderWithBackup<P, S, R> {
    parts: Parts<P, S, R>,
}

/// Builds a muxer with a global sender.
///
/// Ports `MuxerBuilderWithGlobalSender` of commonware-p2p.
#[derive(Drop)]
pub struct MuxerBuilderWithGlobalSender<P, S, R> {
    parts: Parts<P, S, R>,
}

/// Builds a muxer with a backup and a global sender.
///
/// Ports `MuxerBuilderAllOpts` of commonware-p2p.
#[derive(Drop)]
pub struct MuxerBuilderAllOpts<P, S, R> {
    parts: Parts<P, S, R>,
}

impl<P, S, R> Model for Parts<P, S, R> {
    ghost use Rattle.p2p_mux.specs.Built.{Building};

    ghost Value = { Building S R P };

    ghost view = { λ b. record { muxer = b.muxer; handle = b.handle; queues = b.queues } };
}

impl<P, S, R> Model for MuxerBuilder<P, S, R> {
    ghost use Rattle.p2p_mux.specs.Built.{Building};

    ghost Value = { Building S R P };

    ghost view = { λ b. b.parts };
}

impl<P, S, R> Model for MuxerBuilderWithBackup<P, S, R> {
    ghost use Rattle.p2p_mux.specs.Built.{Building};

    ghost Value = { Building S R P };

    ghost view = { λ b. b.parts };
}

impl<P, S, R> Model for MuxerBuilderWithGlobalSender<P, S, R> {
    ghost use Rattle.p2p_mux.specs.Built.{Building};

    ghost Value = { Building S R P };

    ghost view = { λ b. b.parts };
}

impl<P, S, R> Model for MuxerBuilderAllOpts<P, S, R> {
    ghost use Rattle.p2p_mux.specs.Built.{Building};

    ghost Value = { Building S R P };

    ghost view = { λ b. b.parts };
}

impl<S: LimitedSender, R: Receiver<PublicKey = S::PublicKey>> Muxer<S, R>
where
    R: Drop,
{
    /// A muxer over a sender and a receiver, with its handle and its queues.
    ///
    /// `NoRoom` hands both back where memory runs out.
    ///
    /// Ports `Muxer::new` of commonware-p2p.
    pub fn new(
        alloc: Global,
        sender: S,
        receiver: R,
    ) -> Result<(Muxer<S, R>, MuxHandle<S>, MuxQueues<S::PublicKey>), NoRoom<(S, R)>>
        ensures built { IfOk result (λ b. record { muxer = b.0; handle = b.1; queues = b.2 }
            ≡ plain_building sender receiver (R.places receiver)) }
        ensures no_room { IfErr result (λ e. e.0 ≡ (sender, receiver)) }
    {
        match Muxer::builder(alloc, sender, receiver) {
            Ok(builder) => Ok(builder.build()),
            Err(NoRoom(halves)) => Err(NoRoom(halves)),
        }
    }

    /// The builder of a muxer over a sender and a receiver. The queues of its subchannels hold as many messages as the
    /// receiver does.
    ///
    /// `NoRoom` hands both back where memory runs out.
    ///
    /// Ports `Muxer::builder` of commonware-p2p.
    pub fn builder(
        alloc: Global,
        sender: S,
        receiver: R,
    ) -> Result<MuxerBuilder<S::PublicKey, S, R>, NoRoom<(S, R)>>
        ensures builder { IfOk result (λ b. b ≡ plain_building sender receiver (R.places receiver)) }
        ensures no_room { IfErr result (λ e. e.0 ≡ (sender, receiver)) }
    {
        let Ok(queues) = MuxQueues::new(alloc) else {
            return Err(NoRoom((sender, receiver)));
        };
        let handle = MuxHandle::new(sender, receiver.capacity());
        let muxer = muxer_of(sender, receiver);
        Ok(MuxerBuilder {
            parts: Parts {
                muxer,
                handle,
                queues,
            },
        })
    }
}

// Makes the queue of a backup, which holds as many messages as each subchannel does.
fn add_backup<P: Drop, S: Copy, R>(parts: &mut Parts<P, S, R>) -> Result<(), AllocError>
    ensures after { OnOk result (parts.new ≡ with_backup_of parts.old) }
    ensures memory { OnErr result (parts.new ≡ parts.old) }
{
    let backup = Mailbox::new(parts.queues.alloc, parts.handle.capacity())?;
    parts.queues.backup = Some(backup);
    Ok(())
}

impl<P: Drop, S: LimitedSender, R> MuxerBuilder<P, S, R> {
    /// The builder of the same muxer with a backup, whose queue holds as many messages as the receiver does.
    ///
    /// `NoRoom` hands the builder back where memory runs out.
    ///
    /// Ports `MuxerBuilder::with_backup` of commonware-p2p.
    pub fn with_backup(
        self,
    ) -> Result<MuxerBuilderWithBackup<P, S, R>, NoRoom<MuxerBuilder<P, S, R>>>
        ensures backup { IfOk result (λ b. b ≡ with_backup_of self) }
        ensures no_room { IfErr result (λ e. e.0 ≡ self) }
    {
        let MuxerBuilder { mut parts } = self;
        match add_backup(&mut parts) {
            Ok(()) => Ok(MuxerBuilderWithBackup { parts }),
            Err(_) => Err(NoRoom(MuxerBuilder { parts })),
        }
    }

    /// The builder of the same muxer with a global sender.
    ///
    /// Ports `MuxerBuilder::with_global_sender` of commonware-p2p.
    pub fn with_global_sender(self) -> MuxerBuilderWithGlobalSender<P, S, R>
        ensures { result ≡ self }
    {
        let MuxerBuilder { parts } = self;
        MuxerBuilderWithGlobalSender { parts }
    }
}

impl<P: Drop, S: LimitedSender, R> MuxerBuilderWithBackup<P, S, R> {
    /// The builder of the same muxer with a global sender.
    ///
    /// Ports `MuxerBuilderWithBackup::with_global_sender` of commonware-p2p.
    pub fn with_global_sender(self) -> MuxerBuilderAllOpts<P, S, R>
        ensures { result ≡ self }
    {
        let MuxerBuilderWithBackup { parts } = self;
        MuxerBuilderAllOpts { parts }
    }
}

impl<P: Drop, S: LimitedSender, R> MuxerBuilderWithGlobalSender<P, S, R> {
    /// The builder of the same muxer with a backup, whose queue holds as many messages as the receiver does.
    ///
    /// `NoRoom` hands the builder back where memory runs out.
    ///
    /// Ports `MuxerBuilderWithGlobalSender::with_backup` of commonware-p2p.
    pub fn with_backup(
        self,
    ) -> Result<MuxerBuilderAllOpts<P, S, R>, NoRoom<MuxerBuilderWithGlobalSender<P, S, R>>>
        ensures backup { IfOk result (λ b. b ≡ with_backup_of self) }
        ensures no_room { IfErr result (λ e. e.0 ≡ self) }
    {
        let MuxerBuilderWithGlobalSender { mut parts } = self;
        match add_backup(&mut parts) {
            Ok(()) => Ok(MuxerBuilderAllOpts { parts }),
            Err(_) => Err(NoRoom(MuxerBuilderWithGlobalSender { parts })),
        }
    }
}

impl<P: Drop, S: LimitedSender, R> Builder for MuxerBuilder<P, S, R> {
    ghost use Rattle.std.specs.Prelude.{◌≡◌};

    type Output = (Muxer<S, R>, MuxHandle<S>, MuxQueues<P>);

    ghost builds = { λ b built. record { muxer = built.0; handle = built.1; queues = built.2 } ≡ b };

    fn build(self) -> (Muxer<S, R>, MuxHandle<S>, MuxQueues<P>) {
        let MuxerBuilder { parts } = self;
        let Parts {
            muxer,
            handle,
            queues,
        } = parts;
        (muxer, handle, queues)
    }
}

impl<P: Drop, S: LimitedSender, R> Builder for MuxerBuilderWithBackup<P, S, R> {
    ghost use Rattle.std.specs.Prelude.{◌≡◌};

    type Output = (Muxer<S, R>, MuxHandle<S>, MuxQueues<P>, BackupReceiver<P>);

    ghost builds = { λ b built. record { muxer = built.0; handle = built.1; queues = built.2 } ≡ b };

    fn build(self) -> (Muxer<S, R>, MuxHandle<S>, MuxQueues<P>, BackupReceiver<P>) {
        let MuxerBuilderWithBackup { parts } = self;
        let Parts {
            muxer,
            handle,
            queues,
        } = parts;
        (muxer, handle, queues, BackupReceiver::new())
    }
}

impl<P: Drop, S: LimitedSender, R> Builder for MuxerBuilderWithGlobalSender<P, S, R> {
    ghost use Rattle.std.specs.Prelude.{◌≡◌};

    type Output = (Muxer<S, R>, MuxHandle<S>, MuxQueues<P>, GlobalSender<S>);

    ghost builds = { λ b built.
        (record { muxer = built.0; handle = built.1; queues = built.2 } ≡ b) × (built.3 ≡ b.muxer.sender) };

    fn build(self) -> (Muxer<S, R>, MuxHandle<S>, MuxQueues<P>, GlobalSender<S>) {
        let MuxerBuilderWithGlobalSender { parts } = self;
        let Parts {
            muxer,
            handle,
            queues,
        } = parts;
        let global = GlobalSender::new(muxer.sender);
        (muxer, handle, queues, global)
    }
}

impl<P: Drop, S: LimitedSender, R> Builder for MuxerBuilderAllOpts<P, S, R> {
    ghost use Rattle.std.specs.Prelude.{◌≡◌};

    type Output = (
        Muxer<S, R>,
        MuxHandle<S>,
        MuxQueues<P>,
        BackupReceiver<P>,
        GlobalSender<S>,
    );

    ghost builds = { λ b built.
        (record { muxer = built.0; handle = built.1; queues = built.2 } ≡ b) × (built.4 ≡ b.muxer.sender) };

    fn build(
        self,
    ) -> (
        Muxer<S, R>,
        MuxHandle<S>,
        MuxQueues<P>,
        BackupReceiver<P>,
        GlobalSender<S>,
    ) {
        let MuxerBuilderAllOpts { parts } = self;
        let Parts {
            muxer,
            handle,
            queues,
        } = parts;
        let global = GlobalSender::new(muxer.sender);
        (muxer, handle, queues, BackupReceiver::new(), global)
    }
}
