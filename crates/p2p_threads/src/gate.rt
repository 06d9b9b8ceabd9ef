//! What a sender passes around each of its calls.

/// What is told of each call of a sender, before it and after its answer. A sender waits where `pass` does.
pub trait Gate: Sync {
    /// This sender is about to make this call, counted from 0.
    fn pass(&self, sender: u32, call: u32);

    /// This sender's call, counted from 0, was answered.
    fn answered(&self, sender: u32, call: u32);
}
