//! The senders and the receiver of one channel.
mod error;
mod receiver;
mod unlimited;

pub use crate::limited::LimitedSender as Sender;
pub use error::Error;
pub use receiver::Receiver;
pub use unlimited::UnlimitedSender;
