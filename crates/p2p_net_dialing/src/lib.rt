//! The steps by which peers come together: of the dialer and its attempts, of the listener and its handshakes, and what links an
//! attempt to a listener and ends the exchange of keys over a link.
#![tactic(auto)]

mod attempts;
mod dialer;
mod finishing;
mod handing;
mod handshakes;
mod linking;
mod listener;

pub use crate::attempts::attempt_step;
pub use crate::dialer::dial_step;
pub use crate::finishing::finish;
pub use crate::handshakes::handshake_step;
pub use crate::linking::link;
pub use crate::listener::listen_step;
