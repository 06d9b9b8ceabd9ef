//! What networks have alike before they start and as they start: the sizes of a configuration, their channels, and the messenger, the
//! receivers and the router.
mod fitting;
mod opening;
mod registering;
mod sizes;

pub use fitting::Fitting;
pub use opening::{can_open, open};
pub use registering::register;
pub use sizes::{HasSizes, Sizes};
