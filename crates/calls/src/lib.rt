// The seven calls as definitions: what each answers, and the number that a host gets for an answer.
#![tactic(auto)]

ghost use Rattle.std.specs.Prelude.{◌≡◌};
ghost use Rattle.calls.specs.Answer.{number_of, packed};

// What a call answers. Lengths are those of the octets written; a notice has its session's port and side; a plan fault has its
// line and its reason.
// Stays numbers, a refusal and a reason: FORM-8 (docs/RULES.md) has one definition give the number of every case, `number_of`, and the
// theorems on calls say refusals and faults by their numbers.
#[derive(Clone, Copy)]
pub enum Answer {
    Refused(u8),
    Forwarded,
    Dropped,
    Looped(u32),
    Replied(u32),
    RepliedForwarded(u32),
    Noticed(u8, u8, u32),
    Done,
    Faulty(u32, u8),
}

// The one number that a host gets for an answer.
pub fn answer_number(a: Answer) -> u64
    ensures { result ≡ number_of a }
{
    match a {
        Answer::Refused(n) => pack(0, n, 0, 0, 0),
        Answer::Forwarded => 1,
        Answer::Dropped => 2,
        Answer::Looped(n) => pack(3, 0, 0, 0, n),
        Answer::Replied(n) => pack(4, 0, 0, 0, n),
        Answer::RepliedForwarded(n) => pack(5, 0, 0, 0, n),
        Answer::Noticed(port, side, n) => pack(4, 0, port, side, n),
        Answer::Done => 6,
        Answer::Faulty(line, reason) => pack(7, reason, 0, 0, line),
    }
}

// Outcome, reason, port, side and length at their places in that number.
fn pack(outcome: u8, reason: u8, port: u8, side: u8, length: u32) -> u64
    ensures { result ≡ packed outcome reason port side length }
{
    outcome as u64
        + reason as u64 * 256
        + port as u64 * 65536
        + side as u64 * 16777216
        + length as u64 * 4294967296
}
