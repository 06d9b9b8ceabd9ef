//! An input that isn't run, and what is said of it.
ghost use Rattle.std.specs.Prelude.{◌≡◌, IfOk};
ghost use Rattle.std.specs.String.{string_bytes};
ghost use Rattle.p2p_sim.specs.Faults.{status_of, line_of};
ghost use Rattle.p2p_sim.specs.Outcomes.{IsRefusal};
ghost use Rattle.p2p_sim.specs.declared.fault.Fault.TheVariants as fault;

use crate::status::Status;
use std::alloc::{AllocError, Global};

/// Why an input isn't run.
#[derive(Clone, Copy, PartialEq, Eq, Debug)]
pub enum Fault {
    /// The input isn't UTF-8, or isn't JSON.
    NotJson,
    /// The JSON isn't a script.
    NotScript,
    /// The configuration at this place is the first that isn't valid.
    Config(usize),
    /// The configurations are valid, and the event at this place is the first that isn't.
    Event(usize),
}

impl Fault {
    /// The status that tells it.
    pub fn status(self) -> Status
        ensures told { result ≡ status_of self }
        ensures refusal { IsRefusal result }
    {
        match self {
            Fault::NotJson => Status::NotJson,
            Fault::NotScript => Status::NotScript,
            Fault::Config(_) => Status::Config,
            Fault::Event(_) => Status::Event,
        }
    }

    /// The line that tells it: a JSON object, its names in the order of their bytes, and a newline.
    pub fn line(self, alloc: Global) -> Result<String, AllocError>
        ensures { IfOk result (λ line. string_bytes line ≡ line_of self) }
    {
        match self {
            Fault::NotJson => String::from_str(alloc, "{\"error\":\"json\"}\n"),
            Fault::NotScript => String::from_str(alloc, "{\"error\":\"script\"}\n"),
            Fault::Config(i) => config_line(alloc, i),
            Fault::Event(i) => event_line(alloc, i),
        }
    }
}

fn config_line(alloc: Global, i: usize) -> Result<String, AllocError>
    ensures { IfOk result (λ line. string_bytes line ≡ line_of (fault.Config i)) }
{
    format!(in alloc; "{{\"config\":{i},\"error\":\"config\"}}\n")
}

fn event_line(alloc: Global, i: usize) -> Result<String, AllocError>
    ensures { IfOk result (λ line. string_bytes line ≡ line_of (fault.Event i)) }
{
    format!(in alloc; "{{\"error\":\"event\",\"event\":{i}}}\n")
}
