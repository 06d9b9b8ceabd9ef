//! The command `threads`, through the top call.
use crate::threads::gates::Meeting;
use p2p_runtime::{MemorySink, MemorySource};
use p2p_sim::{Status, p2p_sim};
use std::alloc::{AllocError, Global};
use std::sync::Wait;
use std::thread::Threads;

// The status of a command without input, and the sink that it wrote to.
fn ran<R: Threads + Wait + Sync>(
    rt: &R,
    alloc: Global,
    words: &[&str],
    gate: &Meeting,
) -> Result<(Status, MemorySink), AllocError> {
    let mut all = Vec::new(alloc);
    for word in words {
        all.push(String::from_str(alloc, word)?)?;
    }
    let mut source = MemorySource::new(Vec::new(alloc));
    let mut sink = MemorySink::new(alloc);
    let mut end = None;
    let status = p2p_sim(rt, alloc, &all, &mut source, &mut sink, &mut end, gate);
    Ok((status, sink))
}

const LINES: &[u8] =
    b"{\"calls\":3,\"sender\":0,\"taken\":[0,1,2]}\n{\"calls\":3,\"sender\":1,\"taken\":[0,1,2]}\n";

// Senders that run one after another don't meet.
#[test]
fn two_senders_meet_and_have_a_line_each(rt: HostRuntime) {
    let gate = Meeting::new();
    let ran = ran(&rt, rt.alloc(), &["threads", "2", "3"], &gate);
    let (status, sink) = ran.expect(&rt, "memory");
    assert_eq!(rt; status, Status::Ok);
    assert_eq!(rt; sink.as_slice(), LINES);
    assert_eq!(rt; gate.counts(), (6, 6, 6));
}

const OTHERS: [&[&str]; 12] = [
    &["threads"],
    &["threads", "2"],
    &["threads", "2", "3", "4"],
    &["threads", "0", "3"],
    &["threads", "65", "1"],
    &["threads", "1", "0"],
    &["threads", "1", "10001"],
    &["threads", "7", "9363"],
    &["threads", "+2", "3"],
    &["threads", "02", "3"],
    &["threads", "2", "99999999999999999999"],
    &["thread", "2", "3"],
];

#[test]
fn other_words_are_refused(rt: HostRuntime) {
    let gate = Meeting::new();
    for words in OTHERS {
        let ran = ran(&rt, rt.alloc(), words, &gate);
        let (status, sink) = ran.expect(&rt, "memory");
        assert_eq!(rt; status, Status::Usage, "{words:?}");
        assert!(rt; sink.as_slice().is_empty(), "{words:?}");
    }
}
