//! The program: runs a script from standard input or sender threads, and writes to standard output what came of it.
#![tactic(auto)]

mod gate;
mod words;

use crate::gate::NoGate;
use crate::words::words_of;
use p2p_runtime::{StdSink, StdSource};
use p2p_sim::p2p_sim;
use std::mem::forget;
use std::process::ExitCode;

fn main(rt: HostRuntime) -> ExitCode {
    let status = match words_of(&rt) {
        Ok(words) => {
            let mut source = StdSource::new(rt.stdin());
            let mut sink = StdSink::new(rt.stdout());
            let mut end = None;
            let status = p2p_sim(
                &rt,
                rt.alloc(),
                &words,
                &mut source,
                &mut sink,
                &mut end,
                &NoGate,
            );
            // The process ends here, which gives back all that the world holds at once.
            forget(end);
            status
        }
        Err(status) => status,
    };
    ExitCode::from(status.code())
}
