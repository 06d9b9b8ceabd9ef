//! Sources, sinks and links at concrete types, which fail in mid-stream.
use bytes::Bytes;
use p2p_base::List;
use p2p_runtime::{
    Failed, FailingSink, FailingSource, Link, MemoryLink, MemorySink, MemorySource, Source,
    StdSink, StdSource, write_all,
};
use std::alloc::{AllocError, Global};

// How many bytes a read gave, with the buffer after it. `None` is a fault.
type Read = Option<(usize, [u8; 2])>;

fn read_two<S: Source>(source: &mut S) -> Read {
    let mut buf = *b"..";
    match source.read(&mut buf) {
        Ok(n) => Some((n, buf)),
        Err(Failed) => None,
    }
}

// What four reads of a source gave whose second fails, and how many bytes it had.
fn read_all(alloc: Global) -> Result<([Read; 4], usize), AllocError> {
    let inner = MemorySource::new(Vec::from_slice(alloc, b"abc")?);
    let had = inner.len();
    let mut source = FailingSource {
        inner,
        failing: List::from_slice(alloc, &[1])?,
        calls: 0,
        faults: 0,
    };
    let reads = [
        read_two(&mut source),
        read_two(&mut source),
        read_two(&mut source),
        read_two(&mut source),
    ];
    Ok((reads, had))
}

#[test]
fn a_source_fails_at_listed_calls(rt: HostRuntime) {
    let reads = [
        Some((2, *b"ab")),
        None,
        Some((1, *b"c.")),
        Some((0, *b"..")),
    ];
    assert!(rt; read_all(rt.alloc()) == Ok((reads, 3)));
}

// Whether of three writes to a sink the second fails alone, the others arrived, and one fault was counted, none of them by the sink
// below.
fn written(alloc: Global) -> Result<[bool; 5], AllocError> {
    let mut inner = MemorySink::new(alloc);
    inner.reserve(2)?;
    let mut sink = FailingSink {
        inner,
        failing: List::from_slice(alloc, &[1])?,
        calls: 0,
        faults: 0,
    };
    let first = write_all(&mut sink, b"a").is_ok();
    let second = write_all(&mut sink, b"b").is_err();
    let third = write_all(&mut sink, b"c").is_ok();
    let arrived = sink.inner.as_slice() == b"ac".as_slice();
    let faults = (sink.faults, sink.inner.faults()) == (1, 0);
    Ok([first, second, third, arrived, faults])
}

#[test]
fn a_sink_fails_at_listed_calls(rt: HostRuntime) {
    assert!(rt; written(rt.alloc()) == Ok([true; 5]));
}

// What two reads of a standard source gave, and whether two writes to a standard sink went well.
fn passed_on(alloc: Global) -> ([Read; 2], [bool; 2]) {
    let mut source = StdSource::new(b"xyz".as_slice());
    let mut sink = StdSink::new(Vec::new(alloc));
    let reads = [read_two(&mut source), read_two(&mut source)];
    let writes = [
        write_all(&mut sink, b"xyz").is_ok(),
        write_all(&mut sink, b"").is_ok(),
    ];
    (reads, writes)
}

#[test]
fn standard_streams_pass_bytes_on(rt: HostRuntime) {
    let reads = [Some((2, *b"xy")), Some((1, *b"z."))];
    assert!(rt; passed_on(rt.alloc()) == (reads, [true, true]));
}

// A frame goes out and one comes in, through the bound alone: its length, or 0 where none waits. `None` is a fault.
fn exchange<L: Link>(link: &mut L, alloc: Global, frame: Bytes) -> Option<usize> {
    if link.write(alloc, frame).is_err() {
        return None;
    }
    match link.read() {
        Ok(Some(frame)) => Some(frame.len()),
        Ok(None) => Some(0),
        Err(Failed) => None,
    }
}

// What two exchanges gave, the second once a frame has arrived, the length of the frame that departs first, and what one gave once the
// link is cut.
fn exchanged(alloc: Global) -> [Option<usize>; 4] {
    let mut link = MemoryLink::new(alloc);
    let first = exchange(&mut link, alloc, Bytes::from_static(b"a"));
    if link.arrive(Bytes::from_static(b"bc")).is_err() {
        return [first, None, None, None];
    }
    let second = exchange(&mut link, alloc, Bytes::from_static(b"g"));
    let departed = link.depart().map(|frame| frame.len());
    link.cut();
    let cut = exchange(&mut link, alloc, Bytes::from_static(b"h"));
    [first, second, departed, cut]
}

// Whether a frame arrives before the other end leaves, nothing can be written then, the frame is read all the same, and the next read
// fails; and whether nothing can be written to a link that was closed, and nothing read.
fn left(alloc: Global) -> [bool; 6] {
    let mut link = MemoryLink::new(alloc);
    let arrived = link.arrive(Bytes::from_static(b"def")).is_ok();
    link.leave();
    let refused = link.write(alloc, Bytes::from_static(b"h")).is_err();
    let read = matches!(link.read(), Ok(Some(_)));
    let ended = link.read().is_err();
    let mut closed = MemoryLink::new(alloc);
    closed.close();
    [
        arrived,
        refused,
        read,
        ended,
        closed.write(alloc, Bytes::from_static(b"i")).is_err(),
        closed.read().is_err(),
    ]
}

#[test]
fn a_link_carries_frames_both_ways_until_it_is_cut_or_left(rt: HostRuntime) {
    assert!(rt; exchanged(rt.alloc()) == [Some(0), Some(2), Some(1), None]);
    assert!(rt; left(rt.alloc()) == [true; 6]);
}
