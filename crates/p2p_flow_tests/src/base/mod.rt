//! The tests of the lowest crates, through their public names alone.
//!
//! Of `p2p_base` are `data`, `order` and `queues`; of `p2p_address` is `addresses`; of `p2p_runtime` are `draws`, `quotas`
//! and `streams`; of `p2p_wire` is `frames`; of `p2p_discovery` is `payloads`; and of `p2p_flow` are `peers` and `relays`.
//! `texts` has how errors and values of all of them print. Beside what calls answer stand values from outside, as of generators and
//! ranges of addresses.

mod addresses;
mod data;
mod draws;
mod frames;
mod order;
mod payloads;
mod peers;
mod queues;
mod quotas;
mod relays;
mod streams;
mod texts;
