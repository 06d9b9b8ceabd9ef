//! A handshake has one question or one answer at a time.
ghost use Rattle.std.specs.Prelude.{List, ℕ};
ghost use Rattle.p2p_log.specs.declared.config.Config.{Config};
ghost use Rattle.p2p_log.specs.declared.event.Event.{Event};
ghost use Rattle.p2p_log.specs.declared.entry.Entry.{Entry};
ghost use Rattle.p2p_log_rules.specs.Lawful.{IsLawful};
ghost use Rattle.p2p_log_laws.specs.OneAnswer.{HasOneAnswer};

/// States of a handshake of a node, that no two of these are so at a time: a question about it waits for the node's tracker; an
/// answer, or word that keys were exchanged, waits for it; it took that its peer may connect, and the exchange over its link
/// goes on. Nor are two of these: word of the end of that exchange waits for it, or what is asked and told then; the exchange goes
/// on. And its peer is asked for once, while it runs, after it was told that keys were exchanged. It does nothing.
pub fn handshakes_have_one_answer()
    ensures { (configs : List Config) (script : List Event) (log : List Entry) (n name : ℕ) → IsLawful configs script log → HasOneAnswer n name log }
{}
