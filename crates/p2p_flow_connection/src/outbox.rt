//! `Outbox`, the batch that a connection writes next.
ghost use Rattle.std.specs.Prelude.{◌≡◌, ◌-◌, ◌++◌, ◌∷◌, [], drop, IfOk, OnOk, OnErr, length, slice_get};
ghost use Rattle.p2p_flow_connection.specs.Batching.{next_of, lanes_after, ready_of, filled};

use crate::control::{Control, Prioritized};
use bytes::Bytes;
use p2p_flow::Relay;
use p2p_wire::EncodedData;
use std::alloc::{AllocError, Global};
use std::marker::Model;

/// The frames that a connection writes next: at most `size` of them, once it is filled.
///
/// Ports `Outbox` of commonware-p2p, as a batch of frames. What it takes from is lent to each call.
#[derive(Drop)]
pub struct Outbox {
    frames: Vec<Bytes>,
    size: usize,
}

impl Model for Outbox {
    ghost use Rattle.p2p_flow_connection.specs.Batch.{Batch};

    ghost Value = { Batch };

    ghost view = { λ o. record { frames = o.frames.items; size = o.size } };
}

/// What is next for a batch.
#[derive(Drop)]
pub enum Ready {
    /// A frame.
    Frame(Bytes),
    /// A control message that is no frame.
    Kill,
    /// Nothing waits, or no more comes.
    Nothing,
}

// Takes what is next: control before high before low, and an end before data.
fn take_next<C: Control>(
    control: &mut C,
    relay: &mut Relay<EncodedData>,
) -> Option<Prioritized<C::Message, EncodedData>>
    ensures value { result ≡ next_of (slice_get (C.waiting control.old) 0) (C.ended control.old) relay.old }
    ensures control { C.waiting control.new ≡ drop 1 (C.waiting control.old) }
    ensures ended { C.ended control.new ≡ C.ended control.old }
    ensures keeps { C.keeps control.old control.new }
    ensures relay { relay.new ≡ lanes_after (slice_get (C.waiting control.old) 0) (C.ended control.old) relay.old }
{
    if let Some(message) = control.try_recv() {
        return Some(Prioritized::Control(message));
    }
    if control.closed() || relay.is_closed() {
        return Some(Prioritized::Closed);
    }
    if let Some(message) = relay.take_high() {
        return Some(Prioritized::Data(message));
    }
    match relay.take_low() {
        Some(message) => Some(Prioritized::Data(message)),
        None => None,
    }
}

// What is next for a batch, in its frame.
fn take_frame<C: Control>(
    alloc: Global,
    control: &mut C,
    relay: &mut Relay<EncodedData>,
) -> Result<Ready, AllocError>
    ensures value { IfOk result (λ r. r ≡ ready_of C.frame_of (next_of (slice_get (C.waiting control.old) 0) (C.ended control.old) relay.old)) }
    ensures control { C.waiting control.new ≡ drop 1 (C.waiting control.old) }
    ensures ended { C.ended control.new ≡ C.ended control.old }
    ensures keeps { C.keeps control.old control.new }
    ensures relay { relay.new ≡ lanes_after (slice_get (C.waiting control.old) 0) (C.ended control.old) relay.old }
{
    let Some(next) = take_next(control, relay) else {
        return Ok(Ready::Nothing);
    };
    match next {
        Prioritized::Control(message) => match C::encode(alloc, message)? {
            Some(frame) => Ok(Ready::Frame(frame)),
            None => Ok(Ready::Kill),
        },
        Prioritized::Data(EncodedData { payload, .. }) => Ok(Ready::Frame(payload)),
        Prioritized::Closed => Ok(Ready::Nothing),
    }
}

impl Outbox {
    /// An empty batch, which is full with `size` frames.
    pub fn new(alloc: Global, size: usize) -> Outbox
        ensures { result ≡ record { frames = []; size = size } }
    {
        Outbox {
            frames: Vec::new(alloc),
            size,
        }
    }

    /// Takes what a connection does next, which leaves the batch: a control message before data, data with priority before data without. `Closed`
    /// exactly where no control message waits, and the control or the relay has ended. `None` exactly where nothing waits
    /// and neither has ended.
    pub fn next<C: Control>(
        &self,
        control: &mut C,
        relay: &mut Relay<EncodedData>,
    ) -> Option<Prioritized<C::Message, EncodedData>>
        ensures value { result ≡ next_of (slice_get (C.waiting control.old) 0) (C.ended control.old) relay.old }
        ensures control { C.waiting control.new ≡ drop 1 (C.waiting control.old) }
        ensures ended { C.ended control.new ≡ C.ended control.old }
        ensures keeps { C.keeps control.old control.new }
        ensures relay { relay.new ≡ lanes_after (slice_get (C.waiting control.old) 0) (C.ended control.old) relay.old }
    {
        take_next(control, relay)
    }

    /// Puts a frame last in the batch. Where there is no memory, the batch is as it was.
    pub fn push(&mut self, frame: Bytes) -> Result<(), AllocError>
        ensures ok { OnOk result (self.new ≡ record self.old { frames = self.old.frames ++ frame ∷ [] }) }
        ensures memory { OnErr result (self.new ≡ self.old) }
    {
        self.frames.push(frame)?;
        Ok(())
    }

    /// Puts frames last in the batch, in order. Where there is no memory, the batch is as it was.
    pub fn append(&mut self, mut frames: Vec<Bytes>) -> Result<(), AllocError>
        ensures ok { OnOk result (self.new ≡ record self.old { frames = self.old.frames ++ frames.items }) }
        ensures memory { OnErr result (self.new ≡ self.old) }
    {
        self.frames.append(&mut frames)
    }

    /// Fills the batch with what is next, until it has `size` frames, nothing is next, or a kill is met: the answer tells
    /// whether one was. Where there is no memory, the batch is given up with its connection.
    pub fn fill<C: Control>(
        &mut self,
        alloc: Global,
        control: &mut C,
        relay: &mut Relay<EncodedData>,
    ) -> Result<bool, AllocError>
        ensures filled { IfOk result (λ killed. record { killed = killed; frames = self.new.frames; control = C.waiting control.new; lanes = relay.new }
            ≡ filled C.frame_of (C.ended control.old) (self.old.size - length self.old.frames) self.old.frames (C.waiting control.old) relay.old) }
        ensures size { self.new.size ≡ self.old.size }
        ensures ended { C.ended control.new ≡ C.ended control.old }
        ensures keeps { C.keeps control.old control.new }
    {
        while self.frames.len() < self.size {
            match take_frame(alloc, control, relay)? {
                Ready::Frame(frame) => self.frames.push(frame)?,
                Ready::Kill => return Ok(true),
                Ready::Nothing => return Ok(false),
            }
        }
        Ok(false)
    }

    /// The frames, in order.
    pub fn drain(self) -> Vec<Bytes>
        ensures { result.items ≡ self.frames }
    {
        let Outbox { frames, .. } = self;
        frames
    }
}
