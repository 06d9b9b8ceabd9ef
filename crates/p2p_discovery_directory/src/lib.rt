//! What a directory of discovery must answer; `PlainDirectory`, which answers it over a directory of lookup; and what the tracker,
//! which asks a directory, and the connections of a discovered network tell each other.
//!
//! `call` is one call of a directory, over which `specs/` has the facts, and `knowing` states the laws of these. `tracker` is what
//! connections ask of their node's tracker, with its answers; `peer` is what a connection is told. Both actors stand on these two,
//! so that neither waits for the other.
#![tactic(auto)]

pub mod call;
pub mod directory_of;
pub mod knowing;
pub mod metadata;
pub mod peer;
pub mod plain;
pub mod reservation;
pub mod tracker;

pub use call::Call;
pub use directory_of::DirectoryOf;
pub use knowing::{infos_are_kept_with_the_record, who_knows_all_is_told_nothing};
pub use metadata::Metadata;
pub use plain::PlainDirectory;
pub use reservation::Reservation;
