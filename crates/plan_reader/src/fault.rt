// The fault of a text, and the reasons for which there is one.
#![tactic(auto, unfolding(crate::specs::ReadPlan::reason_number))]

ghost use Rattle.std.specs.Prelude.{◌≡◌};
ghost use Rattle.plan_reader.specs.ReadPlan.{reason_number};

// Why a text is no plan.
#[derive(Clone, Copy, Debug, PartialEq, Eq)]
pub enum Reason {
    Unreadable,
    OutOfRange,
    Unnamed,
    Repeated,
    TooLong,
    NoPort,
    TooManyMps,
}

// The first fault of a text: its line, or 0 where it is in no line, and the reason.
#[derive(Clone, Copy, Debug, PartialEq, Eq)]
pub struct Fault {
    pub line: u32,
    pub reason: Reason,
}

impl Reason {
    // The number by which a host is told the reason.
    pub fn number(self) -> u8
        ensures { result ≡ reason_number self }
    {
        match self {
            Reason::Unreadable => 1,
            Reason::OutOfRange => 2,
            Reason::Unnamed => 3,
            Reason::Repeated => 4,
            Reason::TooLong => 5,
            Reason::NoPort => 6,
            Reason::TooManyMps => 7,
        }
    }

    // The fault of a line.
    pub(crate) fn at(self, line: u32) -> Fault
        ensures { result ≡ record { line = line; reason = self } }
    {
        Fault { line, reason: self }
    }
}
