//! What both ends of a link agree on.
ghost use Rattle.std.specs.Prelude.{◌≡◌, IfOk};

use p2p_base::List;
use std::alloc::{AllocError, Global};

/// What both ends of a link agree on.
///
/// Ports `Config` of commonware-p2p's `stream`, without its means of authentication.
#[derive(Drop, PartialEq, Eq, Debug)]
pub struct Config {
    /// What is signed begins with it, so that no other network takes the signature.
    pub namespace: List<u8>,
    /// How many bytes a message has at most.
    pub max_message_size: u32,
}

impl Config {
    /// An equal configuration. `Err` only where memory runs out.
    pub fn try_clone(&self, alloc: Global) -> Result<Config, AllocError>
        ensures { IfOk result (λ c. c ≡ self.now) }
    {
        let namespace = self.namespace.try_clone(alloc)?;
        Ok(Config {
            namespace,
            max_message_size: self.max_message_size,
        })
    }
}
