//! What a grant does to the record of a peer that isn't blocked.
ghost use Rattle.std.specs.Prelude.{◌≡◌, cond};
ghost use Rattle.p2p_tracker_directory.specs.Recorded.{may_dial, may_listen, reserved_by};
ghost use Rattle.p2p_tracker_directory.specs.declared.record.ReserveResult.TheVariants as reserve;

use crate::directory::Config;
use crate::{Record, ReserveResult};
use p2p_address::IpAddr;

// Reserves the peer where it may be dialed. True exactly where it did.
pub(super) fn reserve_dial(known: &mut Record, cfg: &Config, now: u64, jitter: u64) -> bool
    ensures answer { result ≡ may_dial known.old now cfg.now.allow_private_ips cfg.now.allow_dns }
    ensures after { known.new ≡ cond result (reserved_by reserve.Reserved known.old now cfg.now.peer_connection_cooldown jitter) known.old }
{
    if !known.eligible()
        || !known.is_outbound_target()
        || !known.has_valid_ingress(cfg.allow_private_ips, cfg.allow_dns)
    {
        return false;
    }
    match known.reserve(now, cfg.peer_connection_cooldown, jitter) {
        ReserveResult::Reserved => true,
        ReserveResult::RateLimited => false,
        ReserveResult::Unavailable => false,
    }
}

// Reserves the peer where a connection that it began from `source` may be taken up. True exactly where it did.
pub(super) fn reserve_listen(
    known: &mut Record,
    cfg: &Config,
    source: IpAddr,
    now: u64,
    jitter: u64,
) -> bool
    ensures answer { result ≡ may_listen known.old source now cfg.now.bypass_ip_check }
    ensures after { known.new ≡ cond result (reserved_by reserve.Reserved known.old now cfg.now.peer_connection_cooldown jitter) known.old }
{
    if !known.acceptable(source, cfg.bypass_ip_check) {
        return false;
    }
    match known.reserve(now, cfg.peer_connection_cooldown, jitter) {
        ReserveResult::Reserved => true,
        ReserveResult::RateLimited => false,
        ReserveResult::Unavailable => false,
    }
}
