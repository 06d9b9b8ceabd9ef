//! Senders and receivers of values: a codec writes each value as bytes, and reads it from them.
pub mod background;
pub mod decoded;
pub mod receiver;
pub mod sender;
pub mod stepped;
pub mod values;

pub use background::WrappedBackgroundReceiver;
pub use decoded::BackgroundReceiver;
pub use receiver::{WrappedMessage, WrappedReceiver, wrap};
pub use sender::{CheckedWrappedSender, WrappedSender};
pub use stepped::Stepped;
pub use values::Codec;
