//! Lists.
ghost use Rattle.std.specs.Prelude.{◌≡◌, Option};
ghost use Rattle.p2p_sim_script.specs.View.{view, items_view};
ghost use Rattle.p2p_sim_script.specs.Gives.{Gives};
ghost use Rattle.p2p_sim_script.specs.Tree.{each, list_of};

use crate::error::ScriptError;
use crate::tree::FromTree;
use crate::value::Value;
use p2p_base::List;
use std::alloc::Global;

impl<T: FromTree> FromTree for List<T> {
    ghost form = { list_of T.form };

    fn from_tree(alloc: Global, tree: &Value) -> Result<List<T>, ScriptError> {
        match tree.as_array() {
            Some(items) => read_each(alloc, items),
            None => Err(ScriptError::NotScript),
        }
    }
}

/// What each of `items` says, in order.
fn read_each<T: FromTree>(alloc: Global, items: &[Value]) -> Result<List<T>, ScriptError>
    ensures { Gives result (each T.form (items_view items.now)) }
{
    let mut list = Vec::new(alloc);
    for item in items {
        list.push(T::from_tree(alloc, item)?)?;
    }
    Ok(List::new(list))
}
