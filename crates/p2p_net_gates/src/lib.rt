//! Two parts of a node: its dialer, with the attempts that it has begun, and its listener, with the peers that arrive at it and
//! the handshakes of those that its gates admit.
#![tactic(auto)]

mod attempt;
mod dialing;
mod handshake;
mod listening;
mod stopping;

pub use attempt::{RunningAttempt, Tried};
pub use dialing::{Dialed, Dialing, gates_config};
pub use handshake::HandshakeStep;
pub use listening::{Listening, Took};
pub use stopping::Stopped;
