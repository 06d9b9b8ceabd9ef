//! The tests of the lowest crates, in `base`, and of what carries messages between a node and its connections, through public names
//! alone. They stand apart so that the gate proves each of those crates once.
//!
//! Of `p2p_flow_connection` are `inboxes` and `outgoing`; of `p2p_flow_senders` are `senders` and `registered`; of `p2p_router` is
//! `routing`; of `p2p_lookup` is `connections`; of `p2p_mux` are `muxers` and `subsenders`, and `codecs`, over the value of `number`; and
//! of providers and blockers is `asking`. `texts` has how errors and labels print, and `node` what several take.
//!
//! A test goes once through the calls of one type, each with ample memory, and compares what they answer: a contract says of each answer
//! what it is, and not that it comes.
#![tactic(auto)]

#[cfg(test)]
mod asking;
#[cfg(test)]
mod base;
#[cfg(test)]
mod codecs;
#[cfg(test)]
mod connections;
#[cfg(test)]
mod inboxes;
#[cfg(test)]
mod muxers;
#[cfg(test)]
mod node;
pub mod number;
#[cfg(test)]
mod outgoing;
#[cfg(test)]
mod registered;
#[cfg(test)]
mod routing;
#[cfg(test)]
mod senders;
#[cfg(test)]
mod subsenders;
#[cfg(test)]
mod texts;
