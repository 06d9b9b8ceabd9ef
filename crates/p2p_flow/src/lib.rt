//! What the parts of the network speak of with one another: recipients, relays, peer sets, and the traits between senders, router and tracker.
#![tactic(auto)]

pub mod addressable;
pub mod blocker;
pub mod carrier;
pub mod ended;
pub mod manager;
pub mod plain;
pub mod provider;
pub mod refusing;
pub mod relay;
pub mod subscription;
pub mod track_error;
pub mod tracked;
pub mod update;

pub use addressable::AddressableTrackedPeers;
pub use blocker::Blocker;
pub use carrier::{Carrier, Connected};
pub use ended::Ended;
pub use manager::{AddressableManager, Manager};
pub use plain::{Channel, Message, Polled, Recipients};
pub use provider::Provider;
pub use refusing::Refusing;
pub use relay::Relay;
pub use subscription::{BlockedSubscription, PeerSetSubscription};
pub use track_error::TrackError;
pub use tracked::TrackedPeers;
pub use update::PeerSetUpdate;
