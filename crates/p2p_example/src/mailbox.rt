//! `p2p_base`: a mailbox, whose messages say themselves what becomes of them when it is full.
use anyhow::{Result, bail};
use p2p_base::{Keep, Mailbox, NoRoom, Sent, UnreliablePolicy};
use std::alloc::Global;

/// A message, with what a full mailbox does with it.
#[derive(Drop)]
struct Note {
    text: &'static str,
    full: Keep,
}

impl UnreliablePolicy for Note {
    // What contracts see of the policy; `keep` is proved to answer the same.
    ghost keep_of = { λ note. note.full };

    fn keep(&self) -> Keep {
        self.full
    }
}

/// A mailbox of one place: the first message takes it. Then news is refused, and an alarm waits in the overflow.
pub fn show(rt: &impl Print, alloc: Global) -> Result<()> {
    println!(rt; "mailbox")?;
    // `Mailbox::new` asks for a capacity of 1 or more: with 0 this line would not be proved.
    let mut mailbox = Mailbox::new(alloc, 1)?;
    offer(rt, &mut mailbox, "news", Keep::Refuse)?;
    offer(rt, &mut mailbox, "more news", Keep::Refuse)?;
    offer(rt, &mut mailbox, "alarm", Keep::Append)?;
    // The oldest comes first, and an empty mailbox gives none.
    for _ in 0..3 {
        match mailbox.take() {
            Some(note) => println!(rt; "  take: {}", note.text)?,
            None => println!(rt; "  take: none")?,
        }
    }
    Ok(())
}

/// Puts one message, and prints what the mailbox answers. A message that is not kept is handed back.
fn offer(
    rt: &impl Print,
    mailbox: &mut Mailbox<Note>,
    text: &'static str,
    full: Keep,
) -> Result<()> {
    match mailbox.enqueue(Note { text, full }) {
        Ok(Sent::Ok) => println!(rt; "  {text}: kept")?,
        Ok(Sent::Backoff) => println!(rt; "  {text}: kept in the overflow")?,
        Ok(Sent::Rejected(note)) => println!(rt; "  {}: refused, since it is full", note.text)?,
        Ok(Sent::Closed(note)) => println!(rt; "  {}: refused, since it is closed", note.text)?,
        Err(NoRoom(note)) => bail!("no memory for {}", note.text),
    }
    Ok(())
}
