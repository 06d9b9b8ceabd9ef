//! What threads share: `shared` has objects with one history, `objects` a limiter and a messenger, `senders` the threads that send into
//! a mailbox, and `command` the command `threads` of the top call; `gates` has the gate at which two senders meet.
mod command;
mod gates;
mod objects;
mod senders;
mod shared;
