//! What a directory is told when it is made.
pub use p2p_tracker_directory::Config;
