//! `Name`, what a log calls an item that stands in a queue.

/// What a log calls an item that stands in a queue, beside the item itself.
#[derive(Clone, Copy, Debug)]
pub struct Name {
    /// The entry that put the item there.
    pub entry: u64,
    /// Its place among that entry's puts.
    pub place: u64,
    /// Of a frame the copy that it carries; of content its send, and 0.
    pub tag: Option<(u64, u64)>,
}
