//! How a run ends.
ghost use Rattle.std.specs.Prelude.{◌≡◌};
ghost use Rattle.pw_defs.specs.Codes.{code_of};

/// How a run of the program ends.
#[derive(Clone, Copy, Debug, PartialEq, Eq)]
pub enum Status {
    /// The output is written, and nothing was found.
    Clean,
    /// The report is written, and has findings.
    Findings,
    /// A file or the job has a fault, and the refusal's line is written.
    Refused,
    /// The words are none that the program knows.
    Usage,
    /// The job passes a bound of this program.
    Bound,
    /// A file, or the output, failed.
    Outside,
    /// Memory ran out.
    Memory,
}

impl Status {
    /// The exit status, 0 to 6 in the order above.
    pub fn code(self) -> u8
        ensures { result ≡ code_of self }
    {
        self as u8
    }
}
