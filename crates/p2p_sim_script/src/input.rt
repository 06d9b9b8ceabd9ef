//! A script, read of its bytes.
ghost use Rattle.std.specs.Prelude.{◌≡◌, Some, None, Err, IfOk};
ghost use Rattle.serde_json.specs.Data.{Data};
ghost use Rattle.p2p_sim_script.specs.Form.{script_of};
ghost use Rattle.p2p_sim_script.specs.Input.{json_of};
ghost use Rattle.p2p_sim_script.specs.declared.error.InputError.TheVariants as error;

use crate::error::{InputError, ReadError};
use crate::text::read_script_text;
use p2p_base::List;
use p2p_log::{Config, Event};
use std::alloc::Global;
use std::str::from_utf8;

/// The configurations and the events that `bytes` say, whether or not these may be run.
///
/// `NotJson` comes of bytes that aren't JSON alone, `NotScript` of JSON alone that hasn't the form of a script, and `Memory`
/// where there was none. Takes time in proportion to the number of bytes.
pub fn read_script_bytes(
    alloc: Global,
    bytes: &[u8],
) -> Result<(List<Config>, List<Event>), InputError>
    ensures value { IfOk result (λ s. (tree : Data) × (json_of bytes.now ≡ Some tree) × (script_of tree ≡ Some s)) }
    ensures not_json { result ≡ Err error.NotJson → json_of bytes.now ≡ None }
    ensures not_script { result ≡ Err error.NotScript → (tree : Data) × (json_of bytes.now ≡ Some tree) × (script_of tree ≡ None) }
{
    let Ok(text) = from_utf8(bytes) else {
        return Err(InputError::NotJson);
    };
    let script = match read_script_text(alloc, text) {
        Ok(script) => script,
        Err(ReadError::NotJson) => return Err(InputError::NotJson),
        Err(ReadError::Memory) => return Err(InputError::Memory),
    };
    script.ok_or(InputError::NotScript)
}
