//! A whole script.
ghost use Rattle.std.specs.Prelude.{◌≡◌, Some, None, Err, IfOk};
ghost use Rattle.serde_json.specs.View.{view as owned_view};
ghost use Rattle.p2p_sim_script.specs.View.{view};
ghost use Rattle.p2p_sim_script.specs.Form.{script_of};

use crate::borrowed::borrowed;
use crate::error::ScriptError;
use crate::tree::{field, only};
use crate::value::Value;
use p2p_base::List;
use p2p_log::{Config, Event};
use serde_json::Value as Owned;
use std::alloc::Global;

/// The configurations and the events that `tree` says.
///
/// `NotScript` comes exactly where the tree hasn't the form of a script, and `Memory` where there was none for what it
/// says. Takes time in proportion to the size of the tree.
pub fn read_script(alloc: Global, tree: &Owned) -> Result<(List<Config>, List<Event>), ScriptError>
    ensures value { IfOk result (λ s. script_of (owned_view tree.now) ≡ Some s) }
    ensures refused { result ≡ Err ScriptError.NotScript → script_of (owned_view tree.now) ≡ None }
{
    let value = borrowed(alloc, tree)?;
    read_tree(alloc, &value)
}

/// The same of a borrowed tree.
pub(crate) fn read_tree(
    alloc: Global,
    tree: &Value<'_>,
) -> Result<(List<Config>, List<Event>), ScriptError>
    ensures value { IfOk result (λ s. script_of (view tree.now) ≡ Some s) }
    ensures refused { result ≡ Err ScriptError.NotScript → script_of (view tree.now) ≡ None }
{
    if !only(tree, &["configs", "script"]) {
        return Err(ScriptError::NotScript);
    }
    let configs = field(alloc, tree, "configs")?;
    let script = field(alloc, tree, "script")?;
    Ok((configs, script))
}
