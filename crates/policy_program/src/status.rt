ghost use Rattle.std.specs.Prelude.{◌≡◌};

/// How a run ended.
#[derive(Clone, Copy, Debug, PartialEq, Eq)]
pub enum Status {
    /// The result was written.
    Done,
    /// The two policies are the same.
    Same,
    /// The two policies differ.
    Differ,
    /// The words are none that the program takes.
    Usage,
    /// A source's statements do not fit together.
    Broken,
    /// The policy is not defined.
    NoPolicy,
    /// The policy lies outside the profile.
    Outside,
    /// The target cannot express the policy.
    Inexpressible,
    /// A file could not be read.
    FetchFailed,
    /// A file has more than 16,777,216 bytes.
    TooLong,
    /// The output could not be written.
    WriteFailed,
    /// Want of memory.
    Memory,
    /// A route file spells no route.
    RouteRefused,
}

impl Status {
    ghost use Rattle.policy_program.specs.Answer.{number_of};

    /// The exit status of the process, 0 to 10.
    pub fn number(&self) -> u8
        ensures { result ≡ number_of self.now }
    {
        match self {
            Status::Done | Status::Same => 0,
            Status::Differ => 1,
            Status::Usage => 2,
            Status::Broken => 3,
            Status::NoPolicy | Status::Outside => 4,
            Status::Inexpressible => 5,
            Status::FetchFailed => 6,
            Status::TooLong => 7,
            Status::WriteFailed => 8,
            Status::Memory => 9,
            Status::RouteRefused => 10,
        }
    }
}
