//! Laws of lawful logs: what holds of each log that is lawful for a script. It uses no actor, and has no code but the
//! functions that state the laws.
#![tactic(auto)]

pub mod accounted;
pub mod beginning;
pub mod beginnings;
pub mod causes;
pub mod delivery;
pub mod endings;
pub mod ends;
pub mod fates;
pub mod grants;
pub mod handshakes;
pub mod inputs;
pub mod kills;
pub mod leading;
pub mod lists;
pub mod moving;
pub mod order;
pub mod releases;
pub mod sends;
pub mod starts;
pub mod worked;

pub use accounted::lawful_logs_are_accounted;
pub use beginning::connections_begin_reserved;
pub use beginnings::beginnings_are_lawful;
pub use causes::each_drop_shows_its_cause;
pub use delivery::only_sent_is_delivered;
pub use endings::{connections_end_by_cause, releases_are_timely};
pub use ends::one_end;
pub use fates::fates_are_true;
pub use grants::{grants_take_turns, node_grants, queues_keep_order};
pub use handshakes::handshakes_have_one_answer;
pub use inputs::steps_serve_their_first_input;
pub use kills::{each_kill_has_its_cause, each_kill_shows_its_cause};
pub use leading::connections_lead_to_their_peers;
pub use lists::lists_are_current;
pub use moving::{bulk_ends_are_whole, flow_keeps_order};
pub use order::delivered_in_order;
pub use releases::holders_release_as_they_end;
pub use sends::{checks_are_spent, sends_are_admitted};
pub use starts::starts_subscribe;
pub use worked::{closed_rows, worked_rows};
