//! How a command ends.
ghost use Rattle.std.specs.Prelude.{◌≡◌};

/// How a command ended. The number is the exit status of the program.
#[derive(Clone, Copy, PartialEq, Eq, Debug)]
pub enum Status {
    /// None of the others came.
    Ok = 0,
    /// The words name no command.
    Usage = 2,
    /// A read met a fault.
    ReadFault = 3,
    /// The input is longer than the limit.
    TooLong = 4,
    /// The input isn't JSON.
    NotJson = 5,
    /// The JSON isn't a script.
    NotScript = 6,
    /// A configuration isn't valid.
    Config = 7,
    /// The configurations are valid, and an event isn't.
    Event = 8,
    /// A write met a fault.
    WriteFault = 9,
    /// There was no memory.
    Memory = 10,
}

impl Status {
    ghost use Rattle.p2p_sim.specs.Codes.{code_of};

    /// The exit status.
    pub fn code(self) -> u8
        ensures { result ≡ code_of self }
    {
        self as u8
    }
}
