//! The text of what the senders sent.
ghost use Rattle.std.specs.Prelude.{◌≡◌, ◌++◌, [], decimal, IfOk, OnOk};
ghost use Rattle.std.specs.String.{string_bytes};
ghost use Rattle.p2p_threads.specs.ThreadText.{more_onto, numbers_onto, line_onto, thread_text};
ghost use Rattle.p2p_threads.specs.TakenOf.{taken_of, HaveAll, taken_onto};

use crate::numbered::Numbered;
use itoa::Buffer;
use std::alloc::{AllocError, Global};

fn put(out: &mut String, text: &str) -> Result<(), AllocError>
    ensures { OnOk result (string_bytes out.new ≡ string_bytes out.old ++ text.now) }
{
    out.push_str(text)
}

fn put_number(out: &mut String, n: u32) -> Result<(), AllocError>
    ensures { OnOk result (string_bytes out.new ≡ string_bytes out.old ++ decimal n) }
{
    let mut buffer = Buffer::new();
    put(out, buffer.format(n))
}

// Each number after a comma.
fn put_more(out: &mut String, numbers: &[u32]) -> Result<(), AllocError>
    ensures { OnOk result (string_bytes out.new ≡ more_onto (string_bytes out.old) numbers.now) }
{
    for number in numbers {
        put(out, ",")?;
        put_number(out, *number)?;
    }
    Ok(())
}

fn put_numbers(out: &mut String, numbers: &[u32]) -> Result<(), AllocError>
    ensures { OnOk result (string_bytes out.new ≡ numbers_onto (string_bytes out.old) numbers.now) }
{
    match numbers.split_first() {
        Some((first, more)) => {
            put_number(out, *first)?;
            put_more(out, more)
        }
        None => Ok(()),
    }
}

// The line of a sender.
fn put_line(out: &mut String, calls: u32, sender: u32, taken: &[u32]) -> Result<(), AllocError>
    ensures { OnOk result (string_bytes out.new ≡ line_onto (string_bytes out.old) calls sender taken.now) }
{
    put(out, "{\"calls\":")?;
    put_number(out, calls)?;
    put(out, ",\"sender\":")?;
    put_number(out, sender)?;
    put(out, ",\"taken\":[")?;
    put_numbers(out, taken)?;
    put(out, "]}")?;
    put(out, "\n")
}

// The numbers of a sender among the messages, in order.
fn taken(alloc: Global, messages: &[Numbered], of: u32) -> Result<Vec<u32>, AllocError>
    ensures { IfOk result (λ v. v.items ≡ taken_of of messages.now) }
{
    let mut numbers = Vec::new(alloc);
    for message in messages {
        if message.sender == of {
            numbers.push(message.number)?;
        }
    }
    Ok(numbers)
}

// A line for each of `n` senders, with what was taken of it.
fn lines(alloc: Global, messages: &[Numbered], n: u32, m: u32) -> Result<String, AllocError>
    ensures { IfOk result (λ text. string_bytes text ≡ taken_onto [] messages.now n m) }
{
    let mut out = String::new(alloc);
    for sender in 0..n {
        let numbers = taken(alloc, messages, sender)?;
        put_line(&mut out, m, sender, numbers.as_slice())?;
    }
    Ok(out)
}

/// The text, where the messages are all that `n` senders sent of `m` each.
pub(crate) fn text_of(
    alloc: Global,
    messages: &[Numbered],
    n: u32,
    m: u32,
) -> Result<String, AllocError>
    requires { HaveAll n m messages.now }
    ensures { IfOk result (λ text. string_bytes text ≡ thread_text n m) }
{
    lines(alloc, messages, n, m)
}
