//! The statuses.

ghost use Rattle.std.specs.Prelude.{◌≡◌};
ghost use Rattle.verdict.specs.OutputText.{number_of};

/// How a command ended (docs/TEXTS.md, "Output").
#[derive(Clone, Copy, Debug, PartialEq, Eq)]
pub enum Status {
    /// The outcome is allowed: SEQ holds an execution that shows it, with a sequence that commits it.
    Allowed,
    /// The outcome is forbidden: no execution with a committing sequence shows it within the bounds.
    Forbidden,
    /// The program was listed.
    Shown,
    /// The words are no command line.
    Usage,
    /// The class files make no program, or what is asked is not built.
    Refused,
    /// A limit is passed.
    Limit,
    /// A class file could not be read.
    ReadFault,
    /// SEQ or the output could not be written.
    WriteFault,
    /// Memory ran out.
    Memory,
}

impl Status {
    /// The number with which a program ends.
    pub fn number(&self) -> u8
        ensures { result ≡ number_of self.now }
    {
        match self {
            Status::Allowed => 0,
            Status::Forbidden => 1,
            Status::Shown => 0,
            Status::Usage => 4,
            Status::Refused => 5,
            Status::Limit => 6,
            Status::ReadFault => 7,
            Status::WriteFault => 8,
            Status::Memory => 9,
        }
    }
}
