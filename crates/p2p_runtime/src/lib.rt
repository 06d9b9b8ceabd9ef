//! What a runtime gives to a node: the streams of the outside, rate limiters, and seeded draws.
#![tactic(auto)]

pub mod draws;
pub mod limiter;
pub mod quota;
pub mod streams;

pub use draws::Draws;
pub use limiter::Limiter;
pub use quota::{KeyedRateLimiter, Quota, RateLimiter};
pub use streams::{
    Failed, FailingSink, FailingSource, Link, LinkFault, MemoryLink, MemorySink, MemorySource,
    Sink, Source, StdSink, StdSource, write_all,
};
