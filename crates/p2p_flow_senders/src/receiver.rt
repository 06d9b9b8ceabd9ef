//! `Receiver`, which receives messages.
ghost use Rattle.std.specs.Prelude.{◌≡◌, ◌≤◌, ℕ, List as Seq, Result as Answer};
ghost use Rattle.p2p_flow.specs.declared.plain.Polled.{Polled as Asked};

use p2p_flow::{Message, Polled};

/// Receives messages.
///
/// It is lent its way, where its messages wait. Ports `Receiver` of commonware-p2p, whose answer is a future.
pub trait Receiver {
    /// Why no more comes.
    type Error;

    /// The names of peers.
    type PublicKey;

    /// Where messages wait.
    type Way;

    // The way is one in which this value was made.
    ghost serves: { Self → Self.Way → Type 0 };

    // What asking for a message gives.
    ghost received: { Self → Self.Way → Answer (Asked (Self.PublicKey × Seq ℕ)) Self.Error };

    // The way after that.
    ghost after_recv: { Self → Self.Way → Self.Way };

    // How many messages wait at most.
    ghost places: { Self → ℕ };

    /// Takes the oldest message, with the key of its sender. `Pending` where none waits yet.
    fn poll_recv(
        &mut self,
        way: &mut Self::Way,
    ) -> Result<Polled<Message<Self::PublicKey>>, Self::Error>
        requires { serves self.old way.old }
        ensures value { result ≡ received self.old way.old }
        ensures after { way.new ≡ after_recv self.old way.old }
        ensures same { self.new ≡ self.old }
        ensures serves { serves self.new way.new };

    /// How many messages wait at most. No call changes it.
    fn capacity(&self) -> usize
        ensures capacity { result ≡ places self.now }
        ensures some { 1 ≤ result };
}
