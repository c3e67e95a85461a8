// How a run ends.
ghost use Rattle.std.specs.Prelude.{◌≡◌};

/// How a run ended, and what it wrote.
#[derive(Clone, Copy, Debug, PartialEq, Eq)]
pub enum Status {
    /// The report was written, and a verdict, if any, is pass.
    Done,
    /// The report was written, and its verdict is fail.
    Fails,
    /// The report was written, and its verdict is undecided.
    Undecided,
    /// One `refused` line was written.
    Refused,
    /// A file could not be read: one `fault` line was written.
    ReadFault,
    /// A put failed: only a part of what was to be written stands.
    WriteFault,
    /// Memory was refused: nothing was written.
    NoMemory,
}

impl Status {
    ghost use Rattle.report_run.specs.Codes.{code_of};

    /// The exit code of the program: 0 to 6, in the order of the variants.
    pub fn code(&self) -> u8
        ensures { result ≡ code_of self.now }
    {
        match self {
            Status::Done => 0,
            Status::Fails => 1,
            Status::Undecided => 2,
            Status::Refused => 3,
            Status::ReadFault => 4,
            Status::WriteFault => 5,
            Status::NoMemory => 6,
        }
    }
}
