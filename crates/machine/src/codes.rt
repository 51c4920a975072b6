// Response codes by the names of MEF 46 Table 4.
#![tactic(auto, unfolding(crate::specs::Machine::code_of))]

ghost use Rattle.std.specs.Prelude.{◌≡◌};
ghost use Rattle.machine.specs.Machine.{code_octet, code_of};

#[derive(Clone, Copy)]
pub enum Code {
    NoError,
    MalformedRequest,
    MaxSessionsExceeded,
    AlreadyActive,
    AlreadyInactive,
    Unsupported,
    WrongMp,
    Timeout,
    Prohibited,
    UnknownMessageType,
    UnknownError,
    // Any other octet: 3, which is never sent, and those that Table 4 leaves to later versions.
    Other(u8),
}

impl Code {
    // The code that an octet stands for.
    pub fn of(octet: u8) -> Code
        ensures code { result ≡ code_of octet }
        ensures octet { code_octet result ≡ octet }
    {
        match octet {
            0 => Code::NoError,
            1 => Code::MalformedRequest,
            2 => Code::MaxSessionsExceeded,
            4 => Code::AlreadyActive,
            5 => Code::AlreadyInactive,
            6 => Code::Unsupported,
            7 => Code::WrongMp,
            8 => Code::Timeout,
            9 => Code::Prohibited,
            10 => Code::UnknownMessageType,
            255 => Code::UnknownError,
            _ => Code::Other(octet),
        }
    }

    // The octet of a reply or of a notice.
    pub fn octet(self) -> u8
        ensures { result ≡ code_octet self }
    {
        match self {
            Code::NoError => 0,
            Code::MalformedRequest => 1,
            Code::MaxSessionsExceeded => 2,
            Code::AlreadyActive => 4,
            Code::AlreadyInactive => 5,
            Code::Unsupported => 6,
            Code::WrongMp => 7,
            Code::Timeout => 8,
            Code::Prohibited => 9,
            Code::UnknownMessageType => 10,
            Code::UnknownError => 255,
            Code::Other(octet) => octet,
        }
    }
}
