//! Addresses: what names a place to dial or one that dials, and which of them are global.
#![tactic(auto)]

pub mod ip;
pub mod peer;
pub mod ranges;

pub use ip::{IpAddr, SocketAddr, is_global, resolve_filtered, subnet};
pub use peer::{Address, Ingress};
