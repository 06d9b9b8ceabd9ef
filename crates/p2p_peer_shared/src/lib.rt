//! What a connection of either network does with its router and its link: it is announced and released, takes a batch from its
//! control and its relay, writes frames, copies the message that it holds, and has quotas for what comes at a steady pace; and what either
//! network does with its channels before it starts, and with its messenger and its receivers as it starts.
#![tactic(auto)]

pub mod gathering;
pub mod holding;
pub mod network;
pub mod pacing;
pub mod routing;
pub mod writing;

pub use gathering::{Gathered, gather_for};
pub use holding::{copy_of, held_copy};
pub use pacing::{half_quota, quota};
pub use routing::{close_relay, put_ready, put_release};
pub use writing::write_frames;
