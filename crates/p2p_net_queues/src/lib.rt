//! What the queues of nodes and links are made of: tables of deques and of quotas, boards of names, and the rows that record
//! what moves.
#![tactic(auto)]

pub mod board;
pub mod dropping;
pub mod ending;
pub mod lines;
pub mod rows;
pub mod table;
pub mod turn;

pub use board::Board;
pub use dropping::{drop_copy, drop_items, drop_named, drop_sent, take_all_dropped, take_dropped};
pub use ending::{end_copies, end_items};
pub use p2p_base::Deque;
pub use rows::{only, taking};
pub use table::Table;
pub use turn::Turn;
