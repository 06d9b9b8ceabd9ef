//! The texts of a report that no script reaches.
use bytes::Bytes;
use p2p_base::{Feedback, Key, List, Unreliable};
use p2p_log::{Act, Entry, Event, Recipients, Reply, Report};
use p2p_sim_report::write_report;
use std::alloc::{AllocError, Global};

// What came of an act, which took, put and ended nothing.
fn entry(alloc: Global, act: Act, reply: Reply) -> Entry {
    Entry {
        event: Event {
            at: 0,
            seed: 0,
            act,
        },
        reply,
        takes: List::empty(alloc),
        puts: List::empty(alloc),
        ends: List::empty(alloc),
    }
}

// What a step of a tracker comes to that was answered this.
fn step(alloc: Global, reply: Reply) -> Entry {
    entry(alloc, Act::Tracker { node: 0 }, reply)
}

// The answer to a message for nobody.
fn outcome(alloc: Global, told: Feedback) -> Reply {
    Reply::Outcome {
        outcome: Unreliable::Outcome(told),
        node: 0,
        channel: 7,
        keys: List::empty(alloc),
    }
}

// A message to the key 2.
fn send() -> Act {
    Act::Send {
        bytes: Bytes::from_static(b"jM"),
        channel: 7,
        node: 0,
        priority: true,
        to: Recipients::One(Key(2)),
    }
}

// A tracker that has ended, a mailbox that puts a message off, one that is closed for it, and a copy that is nowhere.
fn report(alloc: Global) -> Result<Report, AllocError> {
    let keys = List::from_slice(alloc, &[Key(2)])?;
    let log = [
        step(alloc, Reply::Feedback(Feedback::Closed)),
        step(alloc, outcome(alloc, Feedback::Backoff)),
        step(alloc, outcome(alloc, Feedback::Closed)),
        entry(alloc, send(), Reply::Sent(keys)),
    ];
    let log = List::new(Vec::from_array(alloc, log)?);
    Ok(Report { log })
}

const TEXT: &str = r#"{"end":[],"n":0,"put":[],"reply":{"feedback":"closed"},"take":[]}
{"end":[],"n":1,"put":[],"reply":{"outcome":"backoff"},"take":[]}
{"end":[],"n":2,"put":[],"reply":{"outcome":"closed"},"take":[]}
{"end":[],"n":3,"put":[],"reply":{"sent":[2]},"take":[]}
{"copy":[3,0],"fate":null}
{"copies":1,"entries":4}
"#;

#[test]
fn what_no_script_reaches_has_its_text(rt: HostRuntime) {
    let report = report(rt.alloc()).expect(&rt, "memory");
    let text = write_report(rt.alloc(), &report).expect(&rt, "memory");
    assert_eq!(rt; text.as_str(), TEXT);
}
