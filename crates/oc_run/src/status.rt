//! How a run ends.

ghost use Rattle.std.specs.Prelude.{◌≡◌};
ghost use Rattle.oc_run.specs.Outcomes.{code_of};

/// How a run ended. The program's exit code is its `code`.
#[derive(Clone, Copy, Debug, PartialEq, Eq)]
pub enum Status {
    /// All was said, and no line was refused.
    Done,
    /// All was said, and some line was refused.
    Refusals,
    /// The words don't have the form.
    Words,
    /// There was no memory.
    Memory,
    /// The host failed.
    Host,
    /// The source of the script failed.
    Source,
    /// The script has more than 268,435,456 bytes.
    TooLong,
}

impl Status {
    /// 0 for `Done`, 1 for `Refusals`, 2 for `Words`, 3 for `Memory`, 4 for `Host`, 5 for `Source` and 8 for `TooLong`.
    pub fn code(&self) -> u8
        ensures { result ≡ code_of self.now }
    {
        match self {
            Status::Done => 0,
            Status::Refusals => 1,
            Status::Words => 2,
            Status::Memory => 3,
            Status::Host => 4,
            Status::Source => 5,
            Status::TooLong => 8,
        }
    }
}
