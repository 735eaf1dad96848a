//! How the program ends.

ghost use Rattle.std.specs.Prelude.{◌≡◌};
ghost use Rattle.commands.specs.Statuses.{code_of};

/// How the program ends. The exit status is [`ExitStatus::code`].
#[derive(Clone, Copy, Debug, PartialEq, Eq)]
pub enum ExitStatus {
    /// All was done, as far as the input went.
    Done,
    /// The command line is none of the program's.
    Usage,
    /// A file can't be read, or isn't UTF-8.
    File,
    /// Something is wrong with a node file.
    Nodes,
    /// Something is wrong with a scenario.
    Scenario,
    /// Memory ran out, or the server halted.
    Halted,
    /// The port can't be had, or the network can't be waited for.
    Network,
    /// Standard input or output failed, or the input had no end.
    Stream,
    /// The file of a store can't be had, or what was written can't be kept there.
    Store,
}

impl ExitStatus {
    /// The exit status: 0 where all was done.
    pub fn code(self) -> u8
        ensures { result ≡ code_of self }
    {
        match self {
            ExitStatus::Done => 0,
            ExitStatus::Usage => 2,
            ExitStatus::File => 3,
            ExitStatus::Nodes => 4,
            ExitStatus::Scenario => 4,
            ExitStatus::Halted => 5,
            ExitStatus::Network => 6,
            ExitStatus::Stream => 7,
            ExitStatus::Store => 8,
        }
    }
}
