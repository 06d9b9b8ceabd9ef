//! Reads a script, of its bytes, of its text or of its JSON tree: the configurations of its nodes, and its events. And makes a script
//! of a number of events and a seed.
#![tactic(auto)]

mod act;
mod address;
mod borrowed;
mod config;
mod dialer_act;
mod each;
mod error;
mod event;
pub mod generator;
mod input;
mod list;
mod number;
mod parts;
mod preset;
mod reading;
mod script;
mod text;
mod tracker_act;
mod tree;
mod value;

pub use error::{InputError, ReadError, ScriptError};
pub use generator::generated_script;
pub use generator::text::generated;
pub use input::read_script_bytes;
pub use script::read_script;
pub use text::read_script_text;
