//! `UnlimitedSender`, which sends on a channel without a quota.
ghost use Rattle.std.specs.Prelude.{◌≡◌, None, IfOk, IfErr, OnOk, OnErr};
ghost use Rattle.p2p_flow_senders.specs.Sending.{size_refusal, IsCause};
ghost use Rattle.p2p_flow_senders.specs.Limits.{with_messenger};

use crate::{SendError, Way};
use bytes::Bytes;
use p2p_base::{PublicKey, Unreliable};
use p2p_flow::{Carrier, Channel, Recipients};
use std::alloc::{AllocError, Global};
use std::marker::{Model, PhantomData};

/// Sends on one channel without a quota, in messages of at most `max_size` bytes.
///
/// Ports `UnlimitedSender` of commonware-p2p's `channels`.
pub struct UnlimitedSender<P, M> {
    pub(crate) channel: Channel,
    pub(crate) max_size: u32,
    of: PhantomData<(P, M)>,
}

impl<P, M> Model for UnlimitedSender<P, M> {
    ghost use Rattle.p2p_flow_senders.specs.Limits.{OnChannel};

    ghost Value = { OnChannel };

    ghost view = { λ s. record { channel = s.channel; max_size = s.max_size } };

    ghost inverse = { λ v. record { channel = v.channel; max_size = v.max_size; of = record {} } };
}

impl<P, M> Clone for UnlimitedSender<P, M> {
    ghost is_clone = { λ s copy. copy ≡ s };

    fn clone(&self) -> Result<UnlimitedSender<P, M>, AllocError> {
        Ok(UnlimitedSender {
            channel: self.channel,
            max_size: self.max_size,
            of: PhantomData,
        })
    }
}

impl<P, M> Copy for UnlimitedSender<P, M> {}

impl<P: PublicKey, M: Carrier<P>> UnlimitedSender<P, M> {
    /// The sender of a channel, in messages of at most `max_size` bytes.
    pub fn new(channel: Channel, max_size: u32) -> UnlimitedSender<P, M>
        ensures { result ≡ record { channel = channel; max_size = max_size } }
    {
        UnlimitedSender {
            channel,
            max_size,
            of: PhantomData,
        }
    }
}

impl<P: PublicKey, M: Carrier<P>> crate::UnlimitedSender for UnlimitedSender<P, M> {
    ghost use Rattle.std.specs.Prelude.{◌≡◌};
    ghost use Rattle.p2p_flow_senders.specs.Sending.{size_refusal};
    ghost use Rattle.p2p_flow_senders.specs.Limits.{with_messenger};

    type PublicKey = P;

    type Way = Way<P, M>;

    ghost serves = { λ _ _. Unit {0} };

    ghost refusal = { λ s message. size_refusal s.max_size message };

    ghost told = { λ s w to message priority. M.content_answer w.messenger to s.channel message priority };

    ghost after_send = { λ s w to message priority. with_messenger w
        (M.after_content w.messenger to s.channel message priority) };

    fn send(
        &self,
        alloc: Global,
        way: &mut Way<P, M>,
        recipients: Recipients<P>,
        message: Bytes,
        priority: bool,
    ) -> Result<Unreliable, SendError>
        ensures answer { IfOk result (λ u. u
            ≡ M.content_answer way.old.messenger recipients self.now.channel message priority) }
        ensures fits { OnOk result (size_refusal self.now.max_size message ≡ None) }
        ensures refused { IfErr result (λ e. IsCause (size_refusal self.now.max_size message) e) }
        ensures after { OnOk result (way.new ≡ with_messenger way.old
            (M.after_content way.old.messenger recipients self.now.channel message priority)) }
        ensures unchanged { OnErr result (way.new ≡ way.old) }
        ensures serves { Unit {0} }
    {
        if message.len() > self.max_size as usize {
            return Err(SendError::MessageTooLarge {
                size: message.len(),
                limit: self.max_size,
            });
        }
        let told = way
            .messenger
            .content(alloc, recipients, self.channel, message, priority)?;
        Ok(told)
    }
}
