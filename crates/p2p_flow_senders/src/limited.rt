//! `LimitedSender`, which sends on a channel as a quota for each peer admits.
ghost use Rattle.std.specs.Prelude.{◌≡◌, ◌≢◌, ◌<◌, ◌∷◌, ◌++◌, [], ℕ, List as Seq, max, IfOk, OnOk, OnErr, length, slice_get};
ghost use Rattle.p2p_runtime.specs.QuotaKeys.{StandsForEach};
ghost use Rattle.p2p_flow_senders.specs.Admission.{check_by_law, past_after, moment_after};
ghost use Rattle.p2p_flow_senders.specs.Limits.{fresh_limit, known_of, offered_by, known_after, messenger_by, HasLimit, IsHeard, named_in, rate_in, StandsIn, offered_in, messenger_in, known_in, known_at};
ghost use Rattle.p2p_flow_senders.specs.SenderAt.{sender_at};
ghost use Rattle.p2p_flow_senders.specs.Senders.{IsCheckOf, IsSendCheckedOf};

use crate::admission::admit_all;
use crate::channels::UnlimitedSender;
use crate::way::Limit;
use crate::{SendError, UnlimitedSender as _, Way};
use bytes::Bytes;
use p2p_base::{List, PublicKey, Unreliable};
use p2p_flow::{Carrier, Channel, Recipients};
use p2p_runtime::{KeyedRateLimiter, Quota};
use std::alloc::{AllocError, Global};
use std::marker::{Model, PhantomData};

/// The recipients that a check of a `LimitedSender` admitted.
///
/// Ports `CheckedSender` of commonware-p2p's `limited`.
#[derive(Drop)]
pub struct CheckedSender<P> {
    channel: Channel,
    recipients: List<P>,
}

impl<P> Model for CheckedSender<P> {
    ghost use Rattle.p2p_flow_senders.specs.Limits.{Checked};

    ghost Value = { Checked P };

    ghost view = { λ c. record { channel = c.channel; recipients = c.recipients } };
}

impl<P: Drop> crate::CheckedSender for CheckedSender<P> {
    type PublicKey = P;

    ghost checked = { λ c. c.recipients };

    fn recipients(&self) -> &[P] {
        self.recipients.as_slice()
    }
}

/// Sends on one channel as its quota admits, for each peer apart.
///
/// Ports `LimitedSender` of commonware-p2p's `limited`.
pub struct LimitedSender<P, M> {
    channel: Channel,
    max_size: u32,
    place: usize,
    of: PhantomData<(P, M)>,
}

impl<P, M> Model for LimitedSender<P, M> {
    ghost use Rattle.p2p_flow_senders.specs.Limits.{Named};

    ghost Value = { Named };

    ghost view = { λ s. record { channel = s.channel; max_size = s.max_size; place = s.place } };

    ghost inverse = { λ v. record { channel = v.channel; max_size = v.max_size; place = v.place; of = record {} } };
}

impl<P, M> Clone for LimitedSender<P, M> {
    ghost is_clone = { λ s copy. copy ≡ s };

    fn clone(&self) -> Result<LimitedSender<P, M>, AllocError> {
        Ok(LimitedSender {
            channel: self.channel,
            max_size: self.max_size,
            place: self.place,
            of: PhantomData,
        })
    }
}

impl<P, M> Copy for LimitedSender<P, M> {}

impl<P: PublicKey, M: Carrier<P>> LimitedSender<P, M> {
    /// Makes the limiter of the sender's channel in `way`, with the quota that each peer has, and subscribes to the lists of peers.
    /// Until the first list comes, the peers are those that the messenger tells now.
    ///
    /// `Err` only where memory runs out; nothing has changed then.
    pub fn new(
        alloc: Global,
        way: &mut Way<P, M>,
        sender: UnlimitedSender<P, M>,
        quota: Quota,
    ) -> Result<LimitedSender<P, M>, AllocError>
        ensures value { IfOk result (λ s. s ≡ record {
          channel = sender.channel;
          max_size = sender.max_size;
          place = length way.old.limits;
        }) }
        ensures messenger { OnOk result (way.new.messenger ≡ M.after_subscribe way.old.messenger) }
        ensures serves { IfOk result (λ s. HasLimit M.subscriptions s way.new) }
        ensures limits { OnOk result (way.new.limits ≡ way.old.limits
            ++ fresh_limit sender.channel quota (M.subscriptions way.old.messenger) (M.known way.old.messenger) ∷ []) }
        ensures memory { OnErr result (way.new ≡ way.old) }
    {
        let known = way.messenger.peers(alloc)?;
        way.limits.reserve(1)?;
        let subscription = way.messenger.subscribe(alloc)?;
        let place = way.limits.len();
        way.limits.push_reserved(Limit {
            channel: sender.channel,
            limiter: KeyedRateLimiter::new(alloc, quota),
            subscription,
            known,
        });
        Ok(LimitedSender {
            channel: sender.channel,
            max_size: sender.max_size,
            place,
            of: PhantomData,
        })
    }
}

impl<P: PublicKey, M: Carrier<P>> crate::Sender for LimitedSender<P, M> {}

// Takes the list of peers that waits for a limit, if there is one.
fn refresh<P: PublicKey, M: Carrier<P>>(limit: &mut Limit<P>, messenger: &mut M)
    requires { limit.old.subscription < M.subscriptions messenger.old }
    ensures limit { limit.new ≡ record limit.old { known = known_of M.waiting messenger.old limit.old } }
    ensures messenger { messenger.new ≡ M.after_try_peers messenger.old limit.old.subscription }
{
    if let Some(peers) = messenger.try_peers(limit.subscription) {
        limit.known = peers;
    }
}

// Tests the recipients at a limit.
fn check_at<P: PublicKey, M: Carrier<P>>(
    alloc: Global,
    limit: &mut Limit<P>,
    messenger: &mut M,
    recipients: Recipients<P>,
    now: u64,
) -> Result<Result<List<P>, u128>, AllocError>
    requires { limit.old.subscription < M.subscriptions messenger.old }
    ensures law { (past : P → Seq ℕ) (latest : ℕ) → StandsForEach P.cmp limit.old.kept past latest →
        IfOk result (λ r. r ≡ check_by_law P.cmp limit.old.kept.rate past (max latest now)
        (offered_by M.waiting messenger.old limit.old recipients)) }
    ensures stands { (past : P → Seq ℕ) (latest : ℕ) → StandsForEach P.cmp limit.old.kept past latest →
        OnOk result (StandsForEach P.cmp limit.new.kept
        (past_after P.cmp limit.old.kept.rate past (max latest now)
        (offered_by M.waiting messenger.old limit.old recipients))
        (moment_after (offered_by M.waiting messenger.old limit.old recipients) latest now)) }
    ensures memory { (past : P → Seq ℕ) (latest : ℕ) → StandsForEach P.cmp limit.old.kept past latest →
        OnErr result (StandsForEach P.cmp limit.new.kept past latest) }
    ensures rate { limit.new.kept.rate ≡ limit.old.kept.rate }
    ensures channel { limit.new.channel ≡ limit.old.channel }
    ensures subscription { limit.new.subscription ≡ limit.old.subscription }
    ensures known { limit.new.known ≡ known_after M.waiting messenger.old limit.old recipients }
    ensures messenger { messenger.new ≡ messenger_by M.after_try_peers messenger.old limit.old recipients }
{
    match recipients {
        Recipients::All => {
            refresh(limit, messenger);
            admit_all(alloc, &mut limit.limiter, limit.known.as_slice(), now)
        }
        Recipients::Some(keys) => admit_all(alloc, &mut limit.limiter, keys.as_slice(), now),
        Recipients::One(key) => {
            let keys = one(alloc, key)?;
            admit_all(alloc, &mut limit.limiter, keys.as_slice(), now)
        }
    }
}

// Tests the recipients at the limit of a place.
fn check_among<P: PublicKey, M: Carrier<P>>(
    alloc: Global,
    limits: &mut Vec<Limit<P>>,
    messenger: &mut M,
    place: usize,
    recipients: Recipients<P>,
    now: u64,
) -> Result<Result<List<P>, u128>, AllocError>
    requires { IsHeard M.subscriptions messenger.old (slice_get limits.old.items place) }
    ensures law { (past : P → Seq ℕ) (latest : ℕ) → StandsIn P.cmp (slice_get limits.old.items place) past latest →
        IfOk result (λ r. r ≡ check_by_law P.cmp (rate_in (slice_get limits.old.items place)) past (max latest now)
        (offered_in M.waiting messenger.old (slice_get limits.old.items place) recipients)) }
    ensures stands { (past : P → Seq ℕ) (latest : ℕ) → StandsIn P.cmp (slice_get limits.old.items place) past latest →
        OnOk result (StandsIn P.cmp (slice_get limits.new.items place)
        (past_after P.cmp (rate_in (slice_get limits.old.items place)) past (max latest now)
        (offered_in M.waiting messenger.old (slice_get limits.old.items place) recipients))
        (moment_after (offered_in M.waiting messenger.old (slice_get limits.old.items place) recipients) latest now)) }
    ensures memory { (past : P → Seq ℕ) (latest : ℕ) → StandsIn P.cmp (slice_get limits.old.items place) past latest →
        OnErr result (StandsIn P.cmp (slice_get limits.new.items place) past latest) }
    ensures rate { rate_in (slice_get limits.new.items place) ≡ rate_in (slice_get limits.old.items place) }
    ensures named { named_in (slice_get limits.new.items place) ≡ named_in (slice_get limits.old.items place) }
    ensures known { known_at (slice_get limits.new.items place)
        ≡ known_in M.waiting messenger.old (slice_get limits.old.items place) recipients }
    ensures messenger { messenger.new ≡ messenger_in M.after_try_peers messenger.old
        (slice_get limits.old.items place) recipients }
    ensures others { (other : ℕ) → other ≢ place → slice_get limits.new.items other ≡ slice_get limits.old.items other }
{
    let limit = &mut limits[place];
    check_at(alloc, limit, messenger, recipients, now)
}

// The list of one key.
fn one<P>(alloc: Global, key: P) -> Result<List<P>, AllocError>
where
    P: Drop,
    ensures { IfOk result (λ l. l ≡ key ∷ []) }
{
    let mut keys = List::empty(alloc);
    keys.push(key)?;
    Ok(keys)
}

impl<P: PublicKey, M: Carrier<P>> crate::LimitedSender for LimitedSender<P, M> {
    ghost use Rattle.std.specs.Prelude.{◌≡◌};
    ghost use Rattle.p2p_flow.specs.declared.plain.Recipients.TheVariants as to;
    ghost use Rattle.p2p_flow_senders.specs.Sending.{size_refusal};
    ghost use Rattle.p2p_flow_senders.specs.Limits.{HasLimit, limit_at, rate_in, StandsIn, offered_in, messenger_in, with_messenger, IsAsked};

    type PublicKey = P;

    type Way = Way<P, M>;

    type Checked = CheckedSender<P>;

    ghost serves = { λ s w. HasLimit M.subscriptions s w };

    ghost gave = { λ s c. c.channel ≡ s.channel };

    ghost rate = { λ s w. rate_in (limit_at w s.place) };

    ghost stands = { λ s w past latest. StandsIn P.cmp (limit_at w s.place) past latest };

    ghost offered = { λ s w recipients. offered_in M.waiting w.messenger (limit_at w s.place) recipients };

    ghost refusal = { λ s _ message. size_refusal s.max_size message };

    ghost due = { λ s message. size_refusal s.max_size message };

    ghost content = { λ _ _ message. message };

    ghost content_due = { λ _ message. message };

    ghost told = { λ s w keys message priority. M.content_answer w.messenger
        (to.Some keys) s.channel message priority };

    ghost asked = { λ s w recipients v. IsAsked M.waiting M.after_try_peers w s.place recipients v };

    ghost handed = { λ s w keys message priority v. v
        ≡ with_messenger w (M.after_content w.messenger (to.Some keys) s.channel message priority) };

    ghost told_after = { λ s w recipients keys message priority.
        M.content_answer (messenger_in M.after_try_peers w.messenger (limit_at w s.place) recipients)
        (to.Some keys) s.channel message priority };

    fn check(
        &self,
        alloc: Global,
        way: &mut Way<P, M>,
        recipients: Recipients<P>,
        now: u64,
    ) -> Result<Result<CheckedSender<P>, u128>, AllocError>
        requires { HasLimit M.subscriptions self.now way.old }
        ensures { IsCheckOf (sender_at P.cmp ⟦<CheckedSender<P> as crate::CheckedSender>⟧.checked
            ⟦<LimitedSender<P, M> as crate::LimitedSender>⟧ self.now)
            way.old recipients now result way.new }
    {
        let limits = &mut way.limits;
        let messenger = &mut way.messenger;
        match check_among(alloc, limits, messenger, self.place, recipients, now)? {
            Ok(recipients) => Ok(Ok(CheckedSender {
                channel: self.channel,
                recipients,
            })),
            Err(retry) => Ok(Err(retry)),
        }
    }

    fn send_checked(
        &self,
        alloc: Global,
        way: &mut Way<P, M>,
        checked: CheckedSender<P>,
        message: Bytes,
        priority: bool,
    ) -> Result<Unreliable, SendError>
        requires serves { HasLimit M.subscriptions self.now way.old }
        requires gave { checked.channel ≡ self.now.channel }
        ensures { IsSendCheckedOf (sender_at P.cmp ⟦<CheckedSender<P> as crate::CheckedSender>⟧.checked
            ⟦<LimitedSender<P, M> as crate::LimitedSender>⟧ self.now)
            way.old checked message priority result way.new }
    {
        let CheckedSender { recipients, .. } = checked;
        let sender = UnlimitedSender::new(self.channel, self.max_size);
        sender.send(alloc, way, Recipients::Some(recipients), message, priority)
    }
}
