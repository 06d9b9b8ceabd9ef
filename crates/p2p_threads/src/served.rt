//! What an object must be to be shared.
ghost use Rattle.std.specs.Prelude.{◌≡◌, IfOk, OnOk, OnErr};

use std::alloc::{AllocError, Global};

/// An object whose calls have a meaning: the reply, and the object after it.
pub trait Served: Drop + Send {
    type Call: Copy + Send;

    type Reply: Copy + Send;

    // The reply that an object gives to a call.
    ghost reply: { Self → Self.Call → Self.Reply };

    // The object after the call.
    ghost next: { Self → Self.Call → Self };

    /// Makes one call. Want of memory changes nothing.
    fn serve(&mut self, alloc: Global, call: Self::Call) -> Result<Self::Reply, AllocError>
        ensures reply { IfOk result (λ r. r ≡ reply self.old call) }
        ensures next { OnOk result (self.new ≡ next self.old call) }
        ensures refused { OnErr result (self.new ≡ self.old) };
}
