// What is played, case by case.
use crate::frames::Frame;
use crate::steps::Step::{
    self, Allow, Ask, AskFrom, AskShort, Notice, Octets, Prohibit, Restart, Tick, Vid30,
};

#[derive(Clone, Copy)]
pub struct Case {
    pub title: &'static str,
    pub plan: &'static [u8],
    pub steps: &'static [Step],
}

const PLAN: &[u8] =
    b"port\t1\tuni\t020000000001\nflow\t1\t1\tc\t20\nflow\t2\t1\tc\t30\nmp\t1\tup\t4\n";

// With an up MP at level 5 on flow 1 too.
const PLAN_OF_LEVELS: &[u8] =
    b"port\t1\tuni\t020000000001\nflow\t1\t1\tc\t20\nflow\t2\t1\tc\t30\nmp\t1\tup\t4\nmp\t1\tup\t5\n";

pub const CASES: [Case; 20] = [
    Case {
        title: "B1 Activate for 60 seconds",
        plan: PLAN,
        steps: &[Ask(Frame::Activate)],
    },
    Case {
        title: "B2 version 1, two octets and a TLV added",
        plan: PLAN,
        steps: &[Ask(Frame::Later)],
    },
    Case {
        title: "B3 B1 twice",
        plan: PLAN,
        steps: &[Ask(Frame::Activate), Ask(Frame::Activate)],
    },
    Case {
        title: "B4 B1 with End cut off",
        plan: PLAN,
        steps: &[Ask(Frame::Cut)],
    },
    Case {
        title: "B5 seconds 0",
        plan: PLAN,
        steps: &[Ask(Frame::Zero)],
    },
    Case {
        title: "B6 seconds 86,400",
        plan: PLAN,
        steps: &[Ask(Frame::Day)],
    },
    Case {
        title: "B7 seconds 86,401",
        plan: PLAN,
        steps: &[Ask(Frame::Longer)],
    },
    Case {
        title: "B8 after B1, tick 59,999",
        plan: PLAN,
        steps: &[Ask(Frame::Activate), Tick(59999), Ask(Frame::State)],
    },
    Case {
        title: "B9 after B1, tick 60,000",
        plan: PLAN,
        steps: &[Ask(Frame::Activate), Tick(60000), Notice, Ask(Frame::State)],
    },
    // of 60,000 ms elapsed 16 leaves 59,984: 59,983 later it has 1 second, and a millisecond later it closes
    Case {
        title: "B10 last 4,294,967,290, new 10",
        plan: PLAN,
        steps: &[
            Restart(4294967290),
            Ask(Frame::Activate),
            Tick(10),
            Tick(59993),
            Ask(Frame::State),
            Tick(59994),
            Notice,
        ],
    },
    Case {
        title: "B11 difference 2,147,483,648",
        plan: PLAN,
        steps: &[Tick(2147483648)],
    },
    Case {
        title: "B12 after B1, the tester's VID 30 frame",
        plan: PLAN,
        steps: &[Ask(Frame::Activate), Vid30],
    },
    Case {
        title: "Frames of 13 and of 14 octets",
        plan: PLAN,
        steps: &[
            Octets(b"\x02\x00\x00\x00\x00\x01\x02\x00\x00\x00\x00\xAA\x08"),
            Octets(b"\x02\x00\x00\x00\x00\x01\x02\x00\x00\x00\x00\xAA\x08\x00"),
        ],
    },
    Case {
        title: "Outputs of 2,007 and of 2,008 octets",
        plan: PLAN,
        steps: &[AskShort, Ask(Frame::Activate)],
    },
    Case {
        title: "The 17th session",
        plan: PLAN,
        steps: &[
            AskFrom(0xB1),
            AskFrom(0xB2),
            AskFrom(0xB3),
            AskFrom(0xB4),
            AskFrom(0xB5),
            AskFrom(0xB6),
            AskFrom(0xB7),
            AskFrom(0xB8),
            AskFrom(0xB9),
            AskFrom(0xBA),
            AskFrom(0xBB),
            AskFrom(0xBC),
            AskFrom(0xBD),
            AskFrom(0xBE),
            AskFrom(0xBF),
            AskFrom(0xC0),
            AskFrom(0xC1),
        ],
    },
    Case {
        title: "Prohibited after B1",
        plan: PLAN,
        steps: &[Ask(Frame::Activate), Prohibit(1), Notice, Notice],
    },
    // with flow 2 allowed, so that it is the key that decides
    Case {
        title: "Slip 1: VLAN left out of the key",
        plan: PLAN,
        steps: &[Allow(2), Ask(Frame::Activate), Vid30, Ask(Frame::Data)],
    },
    Case {
        title: "Slip 2: OAM under a second tag taken for ours",
        plan: PLAN,
        steps: &[Ask(Frame::Tagged), Ask(Frame::Activate), Ask(Frame::Tagged)],
    },
    Case {
        title: "Slip 3: a refresh from level 5, MPs at 4 and 5",
        plan: PLAN_OF_LEVELS,
        steps: &[
            Ask(Frame::Activate),
            Tick(30000),
            Ask(Frame::Level5),
            Ask(Frame::State),
            Tick(60000),
            Notice,
        ],
    },
    Case {
        title: "Slip 4: seconds left rounded down",
        plan: PLAN,
        steps: &[
            Ask(Frame::Activate),
            Tick(1),
            Ask(Frame::State),
            Tick(59001),
            Ask(Frame::State),
        ],
    },
];
