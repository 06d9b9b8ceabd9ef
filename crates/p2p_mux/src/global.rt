//! `GlobalSender`, which sends on any subchannel, and what a check of it gives.
ghost use Rattle.std.specs.Prelude.{◌≡◌, Some, IfOk};
ghost use Rattle.p2p_flow_senders.specs.SenderAt.{sender_at};
ghost use Rattle.p2p_flow_senders.specs.Senders.{IsCheckOf, IsSendCheckedOf, IsSendOf};
ghost use Rattle.p2p_flow_senders.specs.Sending.{OnMemory};
ghost use Rattle.p2p_mux.specs.Prefixed.{prefixed, outcome_by};

use bytes::Bytes;
use p2p_base::Unreliable;
use p2p_flow::{Channel, Recipients};
use p2p_flow_senders::{CheckedSender, LimitedSender, SendError, Sender};
use p2p_wire::prefix;
use std::alloc::{AllocError, Global};
use std::marker::Model;

/// What a check of a `GlobalSender` or a `SubSender` gave: the recipients that were admitted, and the subchannel that a
/// message for these goes on, once it is set.
///
/// Ports `CheckedGlobalSender` of commonware-p2p.
#[derive(Drop)]
pub struct CheckedGlobalSender<C> {
    pub(crate) subchannel: Option<Channel>,
    pub(crate) checked: C,
}

impl<C> Model for CheckedGlobalSender<C> {
    ghost use Rattle.p2p_mux.specs.Prefixed.{Chosen};

    ghost Value = { Chosen C };

    ghost view = { λ c. record { subchannel = c.subchannel; checked = c.checked } };
}

impl<C> CheckedGlobalSender<C> {
    /// The same with this subchannel.
    ///
    /// Ports `CheckedGlobalSender::with_subchannel` of commonware-p2p.
    pub fn with_subchannel(self, subchannel: Channel) -> CheckedGlobalSender<C>
        ensures { result ≡ record { subchannel = Some subchannel; checked = self.checked } }
    {
        let CheckedGlobalSender { checked, .. } = self;
        CheckedGlobalSender {
            subchannel: Some(subchannel),
            checked,
        }
    }
}

impl<C: CheckedSender> CheckedSender for CheckedGlobalSender<C> {
    type PublicKey = C::PublicKey;

    ghost checked = { λ c. C.checked c.checked };

    fn recipients(&self) -> &[C::PublicKey] {
        self.checked.recipients()
    }
}

/// Sends on any subchannel.
///
/// It is a small name, over the sender that it wraps.
///
/// Ports `GlobalSender` of commonware-p2p.
#[derive(Clone, Copy, PartialEq, Eq, Debug)]
pub struct GlobalSender<S> {
    pub(crate) sender: S,
}

impl<S> Model for GlobalSender<S> {
    ghost Value = { S };

    ghost view = { λ g. g.sender };

    ghost inverse = { λ s. record { sender = s } };
}

impl<S: LimitedSender> GlobalSender<S> {
    /// Sends on any subchannel by this sender.
    ///
    /// Ports `GlobalSender::new` of commonware-p2p.
    pub fn new(sender: S) -> GlobalSender<S>
        ensures { result ≡ sender }
    {
        GlobalSender { sender }
    }

    /// Checks the recipients at the moment `now`, in nanoseconds, and sends the payload on a subchannel to those that
    /// are admitted. A check that is refused answers `Rejected`.
    ///
    /// `MessageTooLarge` comes exactly where the check passed and the payload with its prefix is longer than the
    /// sender's limit, and `Memory` where memory runs out. The cells of a check that passed stay taken, whatever
    /// becomes of the payload.
    ///
    /// Ports `GlobalSender::send` of commonware-p2p.
    pub fn send(
        &self,
        alloc: Global,
        way: &mut S::Way,
        subchannel: Channel,
        recipients: Recipients<S::PublicKey>,
        payload: Bytes,
        priority: bool,
        now: u64,
    ) -> Result<Unreliable, SendError>
        requires { S.serves self.now way.old }
        ensures send { IsSendOf (sender_at S.PublicKey.cmp S.Checked.checked S.LimitedSender self.now)
            (λ told check u. u ≡ outcome_by told check) way.old recipients (prefixed subchannel payload) priority now
            result way.new }
        ensures unsent { OnMemory result (S.asked self.now way.old recipients way.new) }
    {
        match self.sender.check(alloc, way, recipients, now)? {
            Ok(checked) => {
                send_on(
                    &self.sender,
                    alloc,
                    way,
                    subchannel,
                    checked,
                    payload,
                    priority,
                )
            }
            Err(_) => Ok(Unreliable::Rejected),
        }
    }
}

// The payload with the prefix of its subchannel.
fn prefix_of(alloc: Global, subchannel: Channel, payload: Bytes) -> Result<Bytes, AllocError>
    ensures { IfOk result (λ bytes. bytes ≡ prefixed subchannel payload) }
{
    let prefix = prefix(alloc, subchannel)?;
    let mut message = Vec::from_slice(alloc, prefix.as_slice())?;
    message.extend_from_slice(payload.as_slice())?;
    Ok(Bytes::from_vec(message)?)
}

// Sends a payload on a subchannel to those whom a check admitted.
pub(crate) fn send_on<S: LimitedSender>(
    sender: &S,
    alloc: Global,
    way: &mut S::Way,
    subchannel: Channel,
    checked: S::Checked,
    payload: Bytes,
    priority: bool,
) -> Result<Unreliable, SendError>
    requires serves { S.serves sender.now way.old }
    requires gave { S.gave sender.now checked }
    ensures { IsSendCheckedOf (sender_at S.PublicKey.cmp S.Checked.checked S.LimitedSender sender.now)
        way.old checked (prefixed subchannel payload) priority result way.new }
{
    let message = prefix_of(alloc, subchannel, payload)?;
    sender.send_checked(alloc, way, checked, message, priority)
}

// Sends a message to those whom a check admitted, on the subchannel that was set.
pub(crate) fn send_chosen<S: LimitedSender>(
    sender: &S,
    alloc: Global,
    way: &mut S::Way,
    chosen: CheckedGlobalSender<S::Checked>,
    message: Bytes,
    priority: bool,
) -> Result<Unreliable, SendError>
    requires serves { S.serves sender.now way.old }
    requires gave { S.gave sender.now chosen.checked }
    ensures { IsSendCheckedOf (sender_at S.PublicKey.cmp ⟦<CheckedGlobalSender<S::Checked> as CheckedSender>⟧.checked
        ⟦<GlobalSender<S> as LimitedSender>⟧ sender.now)
        way.old chosen message priority result way.new }
{
    let CheckedGlobalSender {
        subchannel,
        checked,
    } = chosen;
    match subchannel {
        Some(subchannel) => send_on(sender, alloc, way, subchannel, checked, message, priority),
        None => Err(SendError::NoSubchannel),
    }
}

impl<S: LimitedSender> LimitedSender for GlobalSender<S> {
    ghost use Rattle.std.specs.Prelude.{Some};
    ghost use Rattle.p2p_flow_senders.specs.declared.send_error.SendError.TheVariants as send_error;
    ghost use Rattle.p2p_mux.specs.Prefixed.{refusal_on, content_on};

    type PublicKey = S::PublicKey;

    type Way = S::Way;

    type Checked = CheckedGlobalSender<S::Checked>;

    ghost serves = { λ s w. S.serves s w };

    ghost gave = { λ s c. S.gave s c.checked };

    ghost rate = { λ s w. S.rate s w };

    ghost stands = { λ s w past latest. S.stands s w past latest };

    ghost offered = { λ s w recipients. S.offered s w recipients };

    ghost refusal = { λ s c message. refusal_on c.subchannel (S.refusal s c.checked) message };

    ghost due = { λ s message. Some send_error.NoSubchannel };

    ghost content = { λ s c message. content_on c.subchannel (S.content s c.checked) message };

    ghost content_due = { λ s message. S.content_due s message };

    ghost told = { λ s w keys message priority. S.told s w keys message priority };

    ghost asked = { λ s w recipients new. S.asked s w recipients new };

    ghost handed = { λ s w keys message priority new. S.handed s w keys message priority new };

    ghost told_after = { λ s w recipients keys message priority. S.told_after s w recipients keys message priority };

    fn check(
        &self,
        alloc: Global,
        way: &mut S::Way,
        recipients: Recipients<S::PublicKey>,
        now: u64,
    ) -> Result<Result<CheckedGlobalSender<S::Checked>, u128>, AllocError>
        requires serves { S.serves self.now way.old }
        ensures { IsCheckOf (sender_at S.PublicKey.cmp ⟦<CheckedGlobalSender<S::Checked> as CheckedSender>⟧.checked
            ⟦<GlobalSender<S> as LimitedSender>⟧ self.now)
            way.old recipients now result way.new }
    {
        match self.sender.check(alloc, way, recipients, now)? {
            Ok(checked) => Ok(Ok(CheckedGlobalSender {
                subchannel: None,
                checked,
            })),
            Err(retry) => Ok(Err(retry)),
        }
    }

    fn send_checked(
        &self,
        alloc: Global,
        way: &mut S::Way,
        checked: CheckedGlobalSender<S::Checked>,
        message: Bytes,
        priority: bool,
    ) -> Result<Unreliable, SendError>
        requires serves { S.serves self.now way.old }
        requires gave { S.gave self.now checked.checked }
        ensures { IsSendCheckedOf (sender_at S.PublicKey.cmp ⟦<CheckedGlobalSender<S::Checked> as CheckedSender>⟧.checked
            ⟦<GlobalSender<S> as LimitedSender>⟧ self.now)
            way.old checked message priority result way.new }
    {
        send_chosen(&self.sender, alloc, way, checked, message, priority)
    }
}

impl<S: LimitedSender> Sender for GlobalSender<S> {}
