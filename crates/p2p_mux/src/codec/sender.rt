//! `WrappedSender`, which sends values, and what a check of it gives.
ghost use Rattle.std.specs.Prelude.{◌≡◌, ◌⊎◌};
ghost use Rattle.p2p_flow_senders.specs.SenderAt.{sender_at};
ghost use Rattle.p2p_flow_senders.specs.Senders.{IsCheckOf, IsSendCheckedOf, IsSendOf};
ghost use Rattle.p2p_flow_senders.specs.Sending.{OnMemory, sent_to};

use crate::codec::Codec;
use p2p_base::Unreliable;
use p2p_flow::Recipients;
use p2p_flow_senders::{CheckedSender, LimitedSender, SendError, Sender};
use std::alloc::{AllocError, Global};
use std::marker::{Model, PhantomData};

/// Sends values: the bytes that a codec writes of them, by a sender.
///
/// It is a small name, over the sender that it wraps.
///
/// Ports `WrappedSender` of commonware-p2p.
pub struct WrappedSender<S, V> {
    sender: S,
    of: PhantomData<V>,
}

impl<S, V> Model for WrappedSender<S, V> {
    ghost Value = { S };

    ghost view = { λ w. w.sender };

    ghost inverse = { λ s. record { sender = s; of = record {} } };
}

impl<S: Copy, V> Clone for WrappedSender<S, V> {
    ghost use Rattle.std.specs.Prelude.{◌≡◌};

    ghost is_clone = { λ w copy. copy ≡ w };

    fn clone(&self) -> Result<WrappedSender<S, V>, AllocError> {
        Ok(WrappedSender {
            sender: self.sender,
            of: PhantomData,
        })
    }
}

impl<S: Copy, V> Copy for WrappedSender<S, V> {}

impl<S: LimitedSender, V: Codec> WrappedSender<S, V> {
    /// Sends values by this sender.
    ///
    /// Ports `WrappedSender::new` of commonware-p2p.
    pub fn new(sender: S) -> WrappedSender<S, V>
        ensures { result ≡ sender }
    {
        WrappedSender {
            sender,
            of: PhantomData,
        }
    }
}

impl<S: Sender, V: Codec> WrappedSender<S, V> {
    /// Checks the recipients at the moment `now`, in nanoseconds, and sends the bytes of the value to those that are
    /// admitted. Gives them in order, as `Sender::send` does.
    ///
    /// `MessageTooLarge` and `NoSubchannel` come as in `Sender::send`, and `Memory` where memory runs out: nothing is
    /// handed in then. The cells of a check that passed stay taken.
    ///
    /// Ports `WrappedSender::send` of commonware-p2p.
    pub fn send(
        &self,
        alloc: Global,
        way: &mut S::Way,
        recipients: Recipients<S::PublicKey>,
        message: V,
        priority: bool,
        now: u64,
    ) -> Result<Vec<S::PublicKey>, SendError>
        requires { S.serves self.now way.old }
        ensures send { IsSendOf (sender_at S.PublicKey.cmp S.Checked.checked S.LimitedSender self.now)
            (λ told check r. r.items ≡ sent_to told check) way.old recipients (V.encoding message) priority now
            result way.new }
        ensures unsent { OnMemory result ((way.new ≡ way.old) ⊎ S.asked self.now way.old recipients way.new) }
    {
        self.send_ref(alloc, way, recipients, &message, priority, now)
    }

    /// `send` of a value that is borrowed.
    ///
    /// Ports `WrappedSender::send_ref` of commonware-p2p.
    pub fn send_ref(
        &self,
        alloc: Global,
        way: &mut S::Way,
        recipients: Recipients<S::PublicKey>,
        message: &V,
        priority: bool,
        now: u64,
    ) -> Result<Vec<S::PublicKey>, SendError>
        requires { S.serves self.now way.old }
        ensures send { IsSendOf (sender_at S.PublicKey.cmp S.Checked.checked S.LimitedSender self.now)
            (λ told check r. r.items ≡ sent_to told check) way.old recipients (V.encoding message.now) priority now
            result way.new }
        ensures unsent { OnMemory result ((way.new ≡ way.old) ⊎ S.asked self.now way.old recipients way.new) }
    {
        let bytes = message.encode(alloc)?;
        self.sender
            .send(alloc, way, recipients, bytes, priority, now)
    }

    /// Tests the recipients, as `LimitedSender::check` does.
    ///
    /// The outer `Err` is want of memory: no cell is taken then.
    ///
    /// Ports `WrappedSender::check` of commonware-p2p.
    pub fn check(
        &self,
        alloc: Global,
        way: &mut S::Way,
        recipients: Recipients<S::PublicKey>,
        now: u64,
    ) -> Result<Result<CheckedWrappedSender<S, V>, u128>, AllocError>
        requires { S.serves self.now way.old }
        ensures { IsCheckOf (sender_at S.PublicKey.cmp S.Checked.checked S.LimitedSender self.now)
            way.old recipients now result way.new }
    {
        match self.sender.check(alloc, way, recipients, now)? {
            Ok(checked) => Ok(Ok(CheckedWrappedSender {
                checked,
                of: PhantomData,
            })),
            Err(retry) => Ok(Err(retry)),
        }
    }
}

/// The recipients that a check of a `WrappedSender` admitted.
///
/// Ports `CheckedWrappedSender` of commonware-p2p.
#[derive(Drop)]
pub struct CheckedWrappedSender<S: LimitedSender, V> {
    checked: S::Checked,
    of: PhantomData<V>,
}

impl<S: LimitedSender, V> Model for CheckedWrappedSender<S, V> {
    ghost Value = { S.Checked };

    ghost view = { λ c. c.checked };
}

impl<S: LimitedSender, V: Codec> CheckedWrappedSender<S, V> {
    /// The recipients that were admitted, in order.
    ///
    /// Ports `CheckedWrappedSender::recipients` of commonware-p2p.
    pub fn recipients(&self) -> &[S::PublicKey]
        ensures { result.now ≡ S.Checked.checked self.now }
    {
        self.checked.recipients()
    }

    /// Sends the bytes of a value to the recipients that were admitted, as `LimitedSender::send_checked` does; their
    /// cells stay taken. Where it is refused, or there is no memory, nothing is handed in.
    ///
    /// Ports `CheckedWrappedSender::send` of commonware-p2p.
    pub fn send(
        self,
        alloc: Global,
        sender: &WrappedSender<S, V>,
        way: &mut S::Way,
        message: V,
        priority: bool,
    ) -> Result<Unreliable, SendError>
        requires serves { S.serves sender.now way.old }
        requires gave { S.gave sender.now self }
        ensures { IsSendCheckedOf (sender_at S.PublicKey.cmp S.Checked.checked S.LimitedSender sender.now)
            way.old self (V.encoding message) priority result way.new }
    {
        self.send_ref(alloc, sender, way, &message, priority)
    }

    /// `send` of a value that is borrowed.
    ///
    /// Ports `CheckedWrappedSender::send_ref` of commonware-p2p.
    pub fn send_ref(
        self,
        alloc: Global,
        sender: &WrappedSender<S, V>,
        way: &mut S::Way,
        message: &V,
        priority: bool,
    ) -> Result<Unreliable, SendError>
        requires serves { S.serves sender.now way.old }
        requires gave { S.gave sender.now self }
        ensures { IsSendCheckedOf (sender_at S.PublicKey.cmp S.Checked.checked S.LimitedSender sender.now)
            way.old self (V.encoding message.now) priority result way.new }
    {
        let bytes = message.encode(alloc)?;
        let CheckedWrappedSender { checked, .. } = self;
        sender
            .sender
            .send_checked(alloc, way, checked, bytes, priority)
    }
}
