//! Discovery: peers tell each other where they are dialed, and sign it.
//!
//! What they send each other is `Payload`, as bytes and read from bytes, with what it carries; how an info is signed is `sign_info`,
//! over a `Signer`; and whether one is believed is asked of a `types::InfoVerifier`, over a `Verifier`.
#![tactic(auto)]

pub mod bit_vec;
pub mod config;
pub mod gossip_size;
pub mod info;
pub mod payload;
mod reading;
mod signed;
pub mod signer;
pub mod signing;
pub mod types;
pub mod verifier;
mod writing;

pub use bit_vec::BitVec;
pub use config::PayloadConfig;
pub use gossip_size::max_gossip_size;
pub use info::{Info, MAX_HOST, MAX_SIGNATURE};
pub use payload::{BIT_VEC_PREFIX, GREETING_PREFIX, PEERS_PREFIX, Payload};
pub use signed::signed_bytes;
pub use signer::Signer;
pub use signing::sign_info;
pub use verifier::Verifier;
