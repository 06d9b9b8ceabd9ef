//! Writing plain values at the end of a text.
ghost use Rattle.std.specs.Prelude.{◌≡◌, ℕ, List, ◌++◌, decimal, OnOk};
ghost use Rattle.std.specs.String.{string_bytes};
ghost use Rattle.p2p_sim_report.specs.Text.{flag_onto, hex_onto, more_onto, elements_onto, list_onto};

use itoa::{Buffer, Integer};
use p2p_base::Key;
use std::alloc::AllocError;

/// A value that has a text in a report.
pub trait ToText {
    // What stands in a text once the value is written at its end.
    ghost onto: { List ℕ → Self → List ℕ };

    /// Writes the value at the end of `out`. Where memory ran out, `out` ends with a part of it.
    fn write_onto(&self, out: &mut String) -> Result<(), AllocError>
        ensures { OnOk result (string_bytes out.new ≡ onto (string_bytes out.old) self.now) };
}

pub fn put(out: &mut String, text: &str) -> Result<(), AllocError>
    ensures { OnOk result (string_bytes out.new ≡ string_bytes out.old ++ text.now) }
{
    out.push_str(text)
}

pub fn put_number(out: &mut String, n: u64) -> Result<(), AllocError>
    ensures { OnOk result (string_bytes out.new ≡ string_bytes out.old ++ decimal n) }
{
    let mut buffer = Buffer::new();
    put(out, buffer.format(n))
}

pub fn put_count(out: &mut String, n: u128) -> Result<(), AllocError>
    ensures { OnOk result (string_bytes out.new ≡ string_bytes out.old ++ decimal n) }
{
    let mut buffer = Buffer::new();
    put(out, buffer.format(n))
}

pub fn put_flag(out: &mut String, flag: bool) -> Result<(), AllocError>
    ensures { OnOk result (string_bytes out.new ≡ flag_onto (string_bytes out.old) flag) }
{
    if flag {
        put(out, "true")
    } else {
        put(out, "false")
    }
}

pub fn put_hex(out: &mut String, bytes: &[u8]) -> Result<(), AllocError>
    ensures { OnOk result (string_bytes out.new ≡ hex_onto (string_bytes out.old) bytes.now) }
{
    let digits = hex::encode(*out.allocator(), bytes)?;
    put(out, "\"")?;
    put(out, digits.as_str())?;
    put(out, "\"")
}

// The elements after the first, each after a comma.
fn put_more<T: ToText>(out: &mut String, items: &[T]) -> Result<(), AllocError>
    ensures { OnOk result (string_bytes out.new ≡ more_onto T.onto (string_bytes out.old) items.now) }
{
    for item in items {
        put(out, ",")?;
        item.write_onto(out)?;
    }
    Ok(())
}

fn put_elements<T: ToText>(out: &mut String, items: &[T]) -> Result<(), AllocError>
    ensures { OnOk result (string_bytes out.new ≡ elements_onto T.onto (string_bytes out.old) items.now) }
{
    match items.split_first() {
        Some((first, more)) => {
            first.write_onto(out)?;
            put_more(out, more)
        }
        None => Ok(()),
    }
}

pub fn put_list<T: ToText>(out: &mut String, items: &[T]) -> Result<(), AllocError>
    ensures { OnOk result (string_bytes out.new ≡ list_onto T.onto (string_bytes out.old) items.now) }
{
    put(out, "[")?;
    put_elements(out, items)?;
    put(out, "]")
}

impl ToText for Key {
    ghost use Rattle.p2p_sim_report.specs.Text.{key_onto};

    ghost onto = { key_onto };

    fn write_onto(&self, out: &mut String) -> Result<(), AllocError> {
        put_number(out, self.0)
    }
}

impl ToText for (u64, u64) {
    ghost use Rattle.p2p_sim_report.specs.Text.{name_onto};

    ghost onto = { name_onto };

    fn write_onto(&self, out: &mut String) -> Result<(), AllocError> {
        put(out, "[")?;
        put_number(out, self.0)?;
        put(out, ",")?;
        put_number(out, self.1)?;
        put(out, "]")
    }
}
