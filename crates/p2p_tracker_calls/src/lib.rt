//! What a directory of peers was asked and answered, and what a listener tells who arrives; and, in `specs/`, the facts that
//! follow from it, and which gate refuses whom. It has no code but the functions that state the laws of these facts.
#![tactic(auto)]

pub mod call;
pub mod config;
pub mod gates;
pub mod keeping;
pub mod turns;

pub use call::Call;
pub use config::Config;
pub use keeping::{kept_after_each_call, kept_keys_are_eligible};
pub use turns::{allowed_grants_are_of_none_held, grants_and_releases_alternate};
