//! What all crates of the network stand on: lists and texts for plain data, keys, queues, sets and maps.
#![tactic(auto)]

pub mod deque;
pub mod key;
pub mod list;
pub mod mailbox;
pub mod map;
pub mod outcome;
pub mod policy;
pub mod priority_set;
pub mod ring;
pub mod set;
pub mod set_error;
pub mod text;

pub use deque::Deque;
pub use key::{Key, PublicKey};
pub use list::List;
pub use mailbox::Mailbox;
pub use map::Map;
pub use outcome::{Feedback, NoRoom, Pushed, Sent, Unreliable};
pub use policy::{Keep, Policy, UnreliablePolicy};
pub use priority_set::PrioritySet;
pub use ring::Ring;
pub use set::Set;
pub use set_error::SetError;
pub use text::Text;
