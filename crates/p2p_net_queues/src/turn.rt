//! `Turn`, what each act of a node is handed.
use std::alloc::Global;

/// What each act of a node is handed: where its memory comes from, the number of the entry that it makes, and the number of
/// the node.
#[derive(Clone, Copy)]
pub struct Turn {
    pub alloc: Global,
    pub entry: u64,
    pub node: u64,
}
