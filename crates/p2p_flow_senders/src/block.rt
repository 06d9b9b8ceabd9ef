//! The macro `block!`.

/// Asks that a peer be blocked: `block!(blocker, alloc, way, peer, args)` is `blocker.block(alloc, way, peer)`. The arguments after
/// the peer, which may be none, say why, and aren't used.
///
/// Ports `block!` of commonware-p2p, which logs them.
#[macro_export]
macro_rules! block {
    ($blocker:expr, $alloc:expr, $way:expr, $peer:expr $(, $($args:tt)*)?) => {
        $blocker.block($alloc, $way, $peer)
    };
}
