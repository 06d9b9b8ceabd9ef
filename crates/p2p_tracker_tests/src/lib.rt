//! The tests of the tracker's crates, of the gates and of discovery, through their public names alone. They stand together so that
//! the gate proves each of those crates once.
//!
//! Each test goes through the calls of one type, once with ample memory: of `p2p_tracker_directory` are `records` and `directories`,
//! of `p2p_tracker_mailbox` `mailboxes` and `oracles`, of `p2p_tracker` is `trackers`, of `p2p_gates` is `listeners`,
//! of `p2p_discovery` is `infos`, of `p2p_discovery_directory` are `plain`, `controls` and `discovered_oracles`, and of
//! `p2p_discovery_peer` is `discovered`. `peers` has the peers that they speak of.
//! What a tracker, a dialer or a listener does step by step is shown by scripts.
#![tactic(auto)]

#[cfg(test)]
mod controls;
#[cfg(test)]
mod directories;
#[cfg(test)]
mod discovered;
#[cfg(test)]
mod discovered_oracles;
#[cfg(test)]
mod infos;
#[cfg(test)]
mod listeners;
#[cfg(test)]
mod mailboxes;
#[cfg(test)]
mod oracles;
#[cfg(test)]
mod peers;
#[cfg(test)]
mod plain;
#[cfg(test)]
mod records;
#[cfg(test)]
mod trackers;
