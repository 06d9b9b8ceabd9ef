//! `Actor`, the spawner itself: one connection a step.
ghost use Rattle.std.specs.Prelude.{◌≡◌, ◌≤◌, false, IfOk, OnOk, OnErr, IsErr, IsTrue};
ghost use Rattle.p2p_base.specs.Queue.{oldest, without_oldest};
ghost use Rattle.p2p_lookup.specs.Beginning.{IsSpawned};
ghost use Rattle.p2p_lookup.specs.Spawning.{new_spawner};

use super::{Config, Mailbox, Message, Stepped};
use crate::peer;
use p2p_base::PublicKey;
use std::alloc::{AllocError, Global};
use std::marker::{Model, PhantomData};

/// Makes the connections of a node, with the same sizes and quotas for each.
///
/// Ports `Actor` of commonware-p2p's spawner. It hands a connection out, where the original runs it as a task.
#[derive(Drop)]
pub struct Actor<P> {
    cfg: Config,
    failed: bool,
    of: PhantomData<P>,
}

impl<P> Model for Actor<P> {
    ghost use Rattle.std.specs.Prelude.{◌≤◌};
    ghost use Rattle.p2p_lookup.specs.Spawning.{Spawner};

    ghost Value = { Spawner };

    ghost view = { λ a. record { cfg = a.cfg; failed = a.failed } };

    ghost invariant = { λ a. (1 ≤ a.cfg.mailbox_size) × (1 ≤ a.cfg.send_batch_size) };
}

impl<P: PublicKey> Actor<P> {
    /// A spawner of connections with these sizes and quotas.
    ///
    /// Ports `Actor::new` of commonware-p2p's spawner.
    pub fn new(cfg: Config) -> Actor<P>
        requires mailbox { 1 ≤ cfg.mailbox_size }
        requires batch { 1 ≤ cfg.send_batch_size }
        ensures { result ≡ new_spawner cfg }
    {
        Actor {
            cfg,
            failed: false,
            of: PhantomData,
        }
    }

    /// Takes the oldest message, and makes the connection that it asks for. Its number is `name`: no earlier step was given this one.
    ///
    /// `Err` only where memory runs out. Each later step then answers so.
    ///
    /// Ports the turn of the loop of commonware-p2p's spawner.
    pub fn step(
        &mut self,
        alloc: Global,
        mailbox: &mut Mailbox<P>,
        name: u64,
    ) -> Result<Stepped<P>, AllocError>
        ensures stepped { IfOk result (λ s. IsSpawned self.old.cfg name (oldest mailbox.old) s) }
        ensures mailbox { OnOk result (mailbox.new ≡ without_oldest mailbox.old) }
        ensures actor { OnOk result (self.new ≡ self.old) }
        ensures memory { OnErr result (IsTrue self.new.failed) }
        ensures failed { IsTrue self.old.failed → IsErr result }
    {
        if self.failed {
            return Err(AllocError);
        }
        self.failed = true;
        let stepped = spawn(alloc, &self.cfg, mailbox, name)?;
        self.failed = false;
        Ok(stepped)
    }
}

// Makes the connection that the oldest message asks for.
fn spawn<P: PublicKey>(
    alloc: Global,
    cfg: &Config,
    mailbox: &mut Mailbox<P>,
    name: u64,
) -> Result<Stepped<P>, AllocError>
    requires mailbox { 1 ≤ cfg.now.mailbox_size }
    requires batch { 1 ≤ cfg.now.send_batch_size }
    ensures stepped { IfOk result (λ s. IsSpawned cfg.now name (oldest mailbox.old) s) }
    ensures mailbox { OnOk result (mailbox.new ≡ without_oldest mailbox.old) }
{
    let cfg = cfg.try_clone(alloc)?;
    let Some(message) = mailbox.take() else {
        return Ok(Stepped::Idle);
    };
    let Message::Spawn {
        connection,
        reservation,
        ..
    } = message;
    match peer::Actor::new(alloc, cfg, name, reservation) {
        Ok(actor) => Ok(Stepped::Spawned { connection, actor }),
        Err(_) => Err(AllocError),
    }
}
