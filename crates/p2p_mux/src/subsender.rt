//! `SubSender`, which sends on one subchannel.
ghost use Rattle.std.specs.Prelude.{◌≡◌};
ghost use Rattle.p2p_flow_senders.specs.SenderAt.{sender_at};
ghost use Rattle.p2p_flow_senders.specs.Senders.{IsCheckOf, IsSendCheckedOf};

use crate::CheckedGlobalSender;
use crate::global::send_chosen;
use bytes::Bytes;
use p2p_base::Unreliable;
use p2p_flow::{Channel, Recipients};
use p2p_flow_senders::{CheckedSender, LimitedSender, SendError, Sender};
use std::alloc::{AllocError, Global};
use std::marker::Model;

/// Sends on one subchannel.
///
/// It is a small name, over the sender that it wraps.
///
/// Ports `SubSender` of commonware-p2p.
#[derive(Clone, Copy, PartialEq, Eq, Debug)]
pub struct SubSender<S> {
    sender: S,
    subchannel: Channel,
}

impl<S> Model for SubSender<S> {
    ghost use Rattle.p2p_mux.specs.Prefixed.{OnSubchannel};

    ghost Value = { OnSubchannel S };

    ghost view = { λ s. record { sender = s.sender; subchannel = s.subchannel } };

    ghost inverse = { λ v. record { sender = v.sender; subchannel = v.subchannel } };
}

impl<S: LimitedSender> SubSender<S> {
    // Sends on a subchannel by this sender.
    pub(crate) fn new(sender: S, subchannel: Channel) -> SubSender<S>
        ensures { result ≡ record { sender = sender; subchannel = subchannel } }
    {
        SubSender { sender, subchannel }
    }
}

impl<S: LimitedSender> LimitedSender for SubSender<S> {
    ghost use Rattle.p2p_mux.specs.Prefixed.{prefixed, refusal_on, content_on};

    type PublicKey = S::PublicKey;

    type Way = S::Way;

    type Checked = CheckedGlobalSender<S::Checked>;

    ghost serves = { λ s w. S.serves s.sender w };

    ghost gave = { λ s c. S.gave s.sender c.checked };

    ghost rate = { λ s w. S.rate s.sender w };

    ghost stands = { λ s w past latest. S.stands s.sender w past latest };

    ghost offered = { λ s w recipients. S.offered s.sender w recipients };

    ghost refusal = { λ s c message. refusal_on c.subchannel (S.refusal s.sender c.checked) message };

    ghost due = { λ s message. S.due s.sender (prefixed s.subchannel message) };

    ghost content = { λ s c message. content_on c.subchannel (S.content s.sender c.checked) message };

    ghost content_due = { λ s message. S.content_due s.sender (prefixed s.subchannel message) };

    ghost told = { λ s w keys message priority. S.told s.sender w keys message priority };

    ghost asked = { λ s w recipients new. S.asked s.sender w recipients new };

    ghost handed = { λ s w keys message priority new. S.handed s.sender w keys message priority new };

    ghost told_after = { λ s w recipients keys message priority.
        S.told_after s.sender w recipients keys message priority };

    fn check(
        &self,
        alloc: Global,
        way: &mut S::Way,
        recipients: Recipients<S::PublicKey>,
        now: u64,
    ) -> Result<Result<CheckedGlobalSender<S::Checked>, u128>, AllocError>
        requires serves { S.serves self.now.sender way.old }
        ensures { IsCheckOf (sender_at S.PublicKey.cmp ⟦<CheckedGlobalSender<S::Checked> as CheckedSender>⟧.checked
            ⟦<SubSender<S> as LimitedSender>⟧ self.now)
            way.old recipients now result way.new }
    {
        match self.sender.check(alloc, way, recipients, now)? {
            Ok(checked) => Ok(Ok(CheckedGlobalSender {
                subchannel: Some(self.subchannel),
                checked,
            })),
            Err(retry) => Ok(Err(retry)),
        }
    }

    fn send_checked(
        &self,
        alloc: Global,
        way: &mut S::Way,
        checked: CheckedGlobalSender<S::Checked>,
        message: Bytes,
        priority: bool,
    ) -> Result<Unreliable, SendError>
        requires serves { S.serves self.now.sender way.old }
        requires gave { S.gave self.now.sender checked.checked }
        ensures { IsSendCheckedOf (sender_at S.PublicKey.cmp ⟦<CheckedGlobalSender<S::Checked> as CheckedSender>⟧.checked
            ⟦<SubSender<S> as LimitedSender>⟧ self.now)
            way.old checked message priority result way.new }
    {
        send_chosen(&self.sender, alloc, way, checked, message, priority)
    }
}

impl<S: LimitedSender> Sender for SubSender<S> {}
