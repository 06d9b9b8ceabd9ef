//! An event: its moment, its seed, and its act.
ghost use Rattle.std.specs.Prelude.{◌≡◌};
ghost use Rattle.p2p_sim_script.specs.View.{view};
ghost use Rattle.p2p_sim_script.specs.Form.{event_of};

use crate::act::read_act;
use crate::error::ScriptError;
use crate::tree::{FromTree, whole, whole_or};
use crate::value::Value;
use p2p_log::Event;
use std::alloc::Global;

impl FromTree for Event {
    ghost form = { event_of };

    fn from_tree(alloc: Global, tree: &Value) -> Result<Event, ScriptError> {
        let at = whole(tree, "at").ok_or(ScriptError::NotScript)?;
        let seed = whole_or(tree, "seed", 0).ok_or(ScriptError::NotScript)?;
        let act = read_act(alloc, tree)?;
        Ok(Event { at, seed, act })
    }
}
