//! The directory of the tracker: which peers may connect, and who holds the right to.
#![tactic(auto)]

pub mod directory;
pub mod metadata;
mod places;
pub mod record;
pub mod reservation;

pub use directory::{Config, Dialable, Directory};
pub use metadata::Metadata;
pub use record::{Address, DialStatus, Record, ReserveResult, Status};
pub use reservation::Reservation;
