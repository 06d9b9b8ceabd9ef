//! Subchannels of one channel: a muxer that puts each message that a receiver gives into the queue of its subchannel,
//! and the senders and receivers of subchannels.
//!
//! A message of a subchannel is its prefix, the spelling of its number in at most 10 bytes, and then the payload.
//!
//! Beside them stand `codec`, senders and receivers of values, and `labels`, by which what a node counts is told apart.
#![tactic(auto)]

pub mod backup;
pub mod builder;
pub mod codec;
pub mod error;
pub mod global;
pub mod handle;
pub mod labels;
pub mod muxer;
pub mod queues;
mod request;
mod routes;
pub mod static_provider;
pub mod stepped;
pub mod subreceiver;
pub mod subsender;
mod turns;

pub use backup::BackupReceiver;
pub use builder::{
    Builder, MuxerBuilder, MuxerBuilderAllOpts, MuxerBuilderWithBackup,
    MuxerBuilderWithGlobalSender,
};
pub use error::Error;
pub use global::{CheckedGlobalSender, GlobalSender};
pub use handle::MuxHandle;
pub use muxer::Muxer;
pub use queues::MuxQueues;
pub use static_provider::StaticProvider;
pub use stepped::{DropCause, MuxStepped};
pub use subreceiver::SubReceiver;
pub use subsender::SubSender;
