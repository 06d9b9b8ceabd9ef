//! The script of the command `gen`, which is made of a number of events and a seed, and its text. It knows no actor and runs nothing.
mod act_tree;
mod beginning;
mod drawn;
mod event_tree;
mod generated;
mod peer_tree;
mod peers;
pub mod text;

pub use generated::generated_script;
