//! How a command ends.

ghost use Rattle.std.specs.Prelude.{◌≡◌};
ghost use Rattle.resolve_cli.specs.Numbers.{number_of};

use edge_io::numbers::InputError;
use math_terms::Name;

/// Why a program is not linked: its code has more than 65,536 instructions.
#[derive(Clone, Copy, Debug, PartialEq, Eq)]
pub enum LinkError {
    CodeTooLong,
}

/// How a command ends. `Refused` has the report's line, without the LF; `NotFound` and `FileTooLong` the name of the file;
/// `StepsSpent` the number of instructions after which the run was not over.
#[derive(Debug, Drop)]
pub enum Status {
    Done,
    Refused { line: Name },
    BadWords,
    NotFound { name: Name },
    ShelfFault,
    LinkRefused(LinkError),
    BadInput(InputError),
    SourceFault,
    SinkFault,
    StepsSpent { steps: u64 },
    NoMemory,
    FileTooLong { name: Name },
    NotBuilt,
}

impl Status {
    /// The number of the status, which is the exit status of the program.
    pub fn number(&self) -> u8
        ensures { result ≡ number_of self.now }
    {
        match self {
            Status::Done => 0,
            Status::Refused { .. } => 1,
            Status::BadWords => 2,
            Status::NotFound { .. } => 3,
            Status::ShelfFault => 4,
            Status::LinkRefused(_) => 6,
            Status::BadInput(_) => 7,
            Status::SourceFault => 8,
            Status::SinkFault => 9,
            Status::StepsSpent { .. } => 10,
            Status::NoMemory => 12,
            Status::FileTooLong { .. } => 13,
            Status::NotBuilt => 15,
        }
    }
}
