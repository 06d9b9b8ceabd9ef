//! How a network registers a channel.
ghost use Rattle.std.specs.Prelude.{◌≡◌, ◌++◌, ◌∷◌, [], None, length, IfOk, IfErr, OnOk, OnErr};
ghost use Rattle.p2p_flow_connection.specs.Arriving.{with_channel};
ghost use Rattle.p2p_flow_senders.specs.Limits.{fresh_limit, HasLimit};
ghost use Rattle.p2p_flow_senders.specs.Registering.{places_of, IsRegisterCause};
ghost use Rattle.p2p_peer_shared.specs.Opening.{refusal_in};
ghost use Rattle.p2p_router.specs.Messenger.{subscribed};

use p2p_base::PublicKey;
use p2p_flow::Channel;
use p2p_flow_connection::Inbounds;
use p2p_flow_senders::channels::{Receiver, Sender};
use p2p_flow_senders::{Channels, RegisterError, Way};
use p2p_router::Messenger;
use p2p_runtime::Quota;
use std::alloc::Global;

/// Registers a channel of a network, whose peers have this quota: its mailbox holds the burst of each peer that is retained.
///
/// `DuplicateChannel` comes exactly where the channel has a mailbox or is registered already, else `CapacityOverflow` exactly where the
/// places of its mailbox, or of all mailboxes together, pass `usize`, and `Memory` of want of memory. Nothing has changed then.
pub fn register<P: PublicKey>(
    alloc: Global,
    channels: &mut Channels<P>,
    way: &mut Way<P, Messenger<P>>,
    inbounds: &mut Inbounds<P>,
    channel: Channel,
    rate: Quota,
) -> Result<(Sender<P, Messenger<P>>, Receiver<P>), RegisterError>
    ensures sender { IfOk result (λ r. r.0 ≡ record { channel = channel; max_size = channels.old.max_size; place = length way.old.limits }) }
    ensures serves { IfOk result (λ r. HasLimit (λ d. length d.lists) r.0 way.new) }
    ensures receiver { IfOk result (λ r. r.1 ≡ record { channel = channel; capacity = places_of channels.old.max_peers rate }) }
    ensures fits { OnOk result (refusal_in inbounds.old channels.old channel rate ≡ None) }
    ensures refused { IfErr result (IsRegisterCause (refusal_in inbounds.old channels.old channel rate)) }
    ensures channels { OnOk result (channels.new ≡ record channels.old { quotas = channels.old.quotas ++ (channel, rate) ∷ [] }) }
    ensures inbounds { OnOk result (inbounds.new ≡ with_channel inbounds.old channel (places_of channels.old.max_peers rate)) }
    ensures messenger { OnOk result (way.new.messenger ≡ subscribed way.old.messenger) }
    ensures limits { OnOk result (way.new.limits ≡ way.old.limits ++ fresh_limit channel rate (length way.old.messenger.lists) [] ∷ []) }
    ensures channels_unchanged { OnErr result (channels.new ≡ channels.old) }
    ensures inbounds_unchanged { OnErr result (inbounds.new ≡ inbounds.old) }
    ensures way_unchanged { OnErr result (way.new ≡ way.old) }
{
    if inbounds.is_registered(channel) {
        return Err(RegisterError::DuplicateChannel(channel));
    }
    let halves = channels.register(alloc, way, inbounds, channel, rate)?;
    Ok(halves)
}
