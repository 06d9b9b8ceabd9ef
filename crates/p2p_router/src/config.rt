//! `Config`, how large the router's mailbox is.

/// How large the router's mailbox is.
///
/// Ports `Config` of commonware-p2p's router.
#[derive(Clone, Copy, PartialEq, Eq, Debug)]
pub struct Config {
    /// How many ready places the mailbox has: 1 or more.
    pub mailbox_size: usize,
}
