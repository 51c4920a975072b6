// The lines that are printed.
ghost use Rattle.std.specs.Prelude.{◌≡◌, [], ◌∷◌, ◌++◌, ◌+◌, ◌*◌, ◌≤◌, length, get_or};
ghost use Rattle.plan.specs.Line.{tab, lf};
ghost use Rattle.events.specs.AnswerLine.{in_decimal, in_hex, outcomes, answered, refused, answer_line, fault_line};
ghost use Rattle.events.specs.Read.{Put};

use crate::numbers::{put_decimal, put_hex, put_number, put_word};
use plan_lines::LF;

// The word of an outcome. An outcome that no call has, from 7 on, has no word. (Stays a number: a C entry answers it as one.)
fn word_of(outcome: u8) -> &'static [u8]
    ensures { result.now ≡ get_or outcomes outcome [] }
{
    match outcome {
        0 => b"refused",
        1 => b"forward",
        2 => b"drop",
        3 => b"loop",
        4 => b"reply",
        5 => b"replyforward",
        6 => b"done",
        7..=255 => b"",
    }
}

// The same and the tab behind it.
fn put_outcome(out: &mut [u8], at: usize, outcome: u8) -> usize
    requires { at + 13 ≤ length out.old }
    ensures { Put (get_or outcomes outcome [] ++ (tab ∷ [])) at result out.old out.new }
{
    put_word(out, at, word_of(outcome))
}

// The two places that every line begins with.
fn put_head(out: &mut [u8], at: usize, number: u64, word: &[u8]) -> usize
    requires { at + 22 + length word.now ≤ length out.old }
    ensures { Put (in_decimal number ++ (tab ∷ []) ++ (word.now ++ (tab ∷ []))) at result
        out.old out.new }
{
    let end = put_number(out, at, number);
    put_word(out, end, word)
}

// Octets in hex, or `-`, and the LF behind them.
fn put_last(out: &mut [u8], at: usize, octets: &[u8]) -> usize
    requires { at + 2 * length octets.now + 2 ≤ length out.old }
    ensures { Put (in_hex octets.now ++ (lf ∷ [])) at result out.old out.new }
{
    let behind = put_hex(out, at, octets);
    out[behind] = LF;
    behind + 1
}

// The line of a call that was not refused, with the octets that it wrote.
pub fn put_answer(
    out: &mut [u8],
    at: usize,
    number: u64,
    word: &[u8],
    outcome: u8,
    octets: &[u8],
) -> usize
    requires { at + 58 + length word.now + 2 * length octets.now ≤ length out.old }
    ensures { Put (answer_line number word.now (answered outcome octets.now)) at result
        out.old out.new }
{
    let named = put_head(out, at, number, word);
    let told = put_outcome(out, named, outcome);
    let counted = put_number(out, told, octets.len() as u64);
    put_last(out, counted, octets)
}

// The line of a refusal.
pub fn put_refusal(out: &mut [u8], at: usize, number: u64, word: &[u8], refusal: u8) -> usize
    requires { at + 58 + length word.now ≤ length out.old }
    ensures { Put (answer_line number word.now (refused refusal)) at result
        out.old out.new }
{
    let named = put_head(out, at, number, word);
    let told = put_word(out, named, b"refused");
    let counted = put_number(out, told, refusal as u64);
    put_last(out, counted, b"")
}

// The line of a faulty plan.
pub fn put_fault(out: &mut [u8], at: usize, line: u64, reason: u8) -> usize
    requires { at + 48 ≤ length out.old }
    ensures { Put (fault_line line reason) at result out.old out.new }
{
    let named = put_word(out, at, b"plan");
    let told = put_number(out, named, line);
    let end = put_decimal(out, told, reason as u64);
    out[end] = LF;
    end + 1
}
