//! The top call over sources and sinks in memory.
use p2p_base::List;
use p2p_runtime::{FailingSource, MemorySink, MemorySource, Sink, Source, StdSink};
use p2p_sim::{LIMIT, Status, sim};
use std::alloc::{AllocError, Global};

// How the command ends with these words, and whether there is a world then.
fn ended<S: Source, K: Sink>(
    alloc: Global,
    words: &[&str],
    source: &mut S,
    sink: &mut K,
) -> Result<(Status, bool), AllocError> {
    let mut all = Vec::new(alloc);
    for word in words {
        all.push(String::from_str(alloc, word)?)?;
    }
    let mut end = None;
    let status = sim(alloc, &all, source, sink, &mut end);
    Ok((status, end.is_some()))
}

const OTHER_WORDS: [&[&str]; 12] = [
    &[],
    &["Run"],
    &["run", ""],
    &["--help"],
    &["gen"],
    &["gen", "1"],
    &["gen", "1", "7", ""],
    &["gen", "0", "7"],
    &["gen", "100001", "7"],
    &["gen", "01", "7"],
    &["gen", "1", "+7"],
    &["gen", "1", "18446744073709551616"],
];

#[test]
fn other_words_are_refused(rt: HostRuntime) {
    for words in OTHER_WORDS {
        let mut source = MemorySource::new(Vec::new(rt.alloc()));
        let mut sink = MemorySink::new(rt.alloc());
        let ended = ended(rt.alloc(), words, &mut source, &mut sink);
        assert_eq!(rt; ended, Ok((Status::Usage, false)), "{words:?}");
    }
}

const NOTHING: &[u8] = b"{\"configs\":[],\"script\":[]}";

// A script of nothing and then so many spaces.
fn padded(alloc: Global, spaces: usize) -> Result<MemorySource, AllocError> {
    let mut bytes = Vec::from_slice(alloc, NOTHING)?;
    let end = bytes.len().saturating_add(spaces);
    bytes.resize(end, b' ')?;
    Ok(MemorySource::new(bytes))
}

// A script of nothing has 26 bytes.
#[test]
fn an_input_has_a_limit(rt: HostRuntime) {
    for (spaces, due) in [
        (LIMIT - 26, Status::Ok),
        (LIMIT - 25, Status::TooLong),
        (LIMIT + 9, Status::TooLong),
    ] {
        let mut source = padded(rt.alloc(), spaces).expect(&rt, "memory");
        let mut sink = MemorySink::new(rt.alloc());
        let ended = ended(rt.alloc(), &["run"], &mut source, &mut sink);
        assert_eq!(rt; ended, Ok((due, due == Status::Ok)), "{spaces}");
    }
}

// The script is so long that a second read takes a part of it, and a third one finds its end. Each of them fails once.
#[test]
fn a_read_that_fails_is_a_fault_and_nothing_is_written(rt: HostRuntime) {
    for call in 0..3u64 {
        let mut source = FailingSource {
            inner: padded(rt.alloc(), 70_000).expect(&rt, "memory"),
            failing: List::from_slice(rt.alloc(), &[call]).expect(&rt, "memory"),
            calls: 0,
            faults: 0,
        };
        let mut sink = MemorySink::new(rt.alloc());
        let ended = ended(rt.alloc(), &["run"], &mut source, &mut sink);
        assert_eq!(rt; ended, Ok((Status::ReadFault, false)), "{call}");
        assert!(rt; sink.as_slice().is_empty() && source.calls == call + 1);
    }
}

// The writer takes three bytes, and then none.
#[test]
fn a_writer_that_takes_no_more_is_a_fault_behind_what_it_took(rt: HostRuntime) {
    let mut held = [0u8; 3];
    let mut source = padded(rt.alloc(), 0).expect(&rt, "memory");
    let mut sink = StdSink::new(held.as_mut_slice());
    let ended = ended(rt.alloc(), &["run"], &mut source, &mut sink);
    assert_eq!(rt; ended, Ok((Status::WriteFault, false)));
    assert_eq!(rt; held, *b"{\"c");
}

// What `gen` writes with these words.
fn generated(alloc: Global, words: &[&str]) -> Result<(Status, bool, MemorySink), AllocError> {
    let mut source = MemorySource::new(Vec::new(alloc));
    let mut sink = MemorySink::new(alloc);
    let (status, has_world) = ended(alloc, words, &mut source, &mut sink)?;
    Ok((status, has_world, sink))
}

const ONE: &[u8] = b"{\"copies\":0,\"delivered\":0,\"dropped\":0,\"entries\":1,\"waiting\":0}\n";

#[test]
fn a_script_of_one_event_is_made_and_summed_up(rt: HostRuntime) {
    let (status, has_world, sink) = generated(rt.alloc(), &["gen", "1", "7"]).expect(&rt, "memory");
    assert_eq!(rt; (status, has_world), (Status::Ok, true));
    assert_eq!(rt; sink.as_slice(), ONE);
}
