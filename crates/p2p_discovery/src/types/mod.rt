//! What peers tell each other, and which of it is believed.
pub mod error;
pub mod info_verifier;

pub use crate::{BitVec, Info, Payload, PayloadConfig};
pub use error::Error;
pub use info_verifier::InfoVerifier;
