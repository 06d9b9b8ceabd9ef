//! Objects that threads share, each with one history of its calls: the turnstile through which they are called, and behind it
//! a mailbox, a limiter and a messenger. Beside them stand threads that send into such a mailbox, and the text of what they sent.
#![tactic(auto)]

mod board;
mod draining;
mod gate;
mod limiter;
mod mailbox;
mod messenger;
mod numbered;
mod plays;
mod running;
mod sending;
mod served;
mod shared;
mod steps;
mod taking;
mod text;

pub use gate::Gate;
pub use limiter::{CheckCall, LimiterObject, SharedLimiter};
pub use mailbox::{MailboxCall, MailboxObject, MailboxReply, SharedMailbox};
pub use messenger::{MessengerCall, MessengerObject, MessengerReply, SharedMessenger};
pub use numbered::Numbered;
pub use running::run_senders;
pub use sending::senders;
pub use served::Served;
pub use shared::{Out, Pass, Shared};
pub use taking::taken_in_order;
