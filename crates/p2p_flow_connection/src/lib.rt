//! What one connection keeps beside its queues: the batch that it writes, how often it may do a thing, and what it received.
#![tactic(auto)]

pub mod control;
pub mod delivered;
pub mod error;
pub mod inbounds;
pub mod inbox;
pub mod outbox;
pub mod throttle;

pub use control::{Control, Prioritized};
pub use delivered::Delivered;
pub use error::Error;
pub use inbounds::Inbounds;
pub use inbox::Inbox;
pub use outbox::Outbox;
pub use throttle::Throttle;
