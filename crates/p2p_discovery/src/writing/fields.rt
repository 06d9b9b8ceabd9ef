//! Numbers and runs of bytes.
ghost use Rattle.std.specs.Prelude.{◌≡◌, ◌++◌, OnOk};
ghost use Rattle.p2p_wire.specs.Varint.{spelling};
ghost use Rattle.p2p_discovery.specs.Spelling.{sized};

use p2p_wire::prefix;
use std::alloc::AllocError;

pub(crate) fn put_number(out: &mut Vec<u8>, number: u64) -> Result<(), AllocError>
    ensures { OnOk result (out.new.items ≡ out.old.items ++ spelling number) }
{
    let digits = prefix(*out.allocator(), number)?;
    out.extend_from_slice(digits.as_slice())?;
    Ok(())
}

// How many bytes there are, and then these.
pub(crate) fn put_sized(out: &mut Vec<u8>, bytes: &[u8]) -> Result<(), AllocError>
    ensures { OnOk result (out.new.items ≡ out.old.items ++ sized bytes.now) }
{
    put_number(out, bytes.len() as u64)?;
    out.extend_from_slice(bytes)?;
    Ok(())
}
