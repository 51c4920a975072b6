// Numbers in decimal, and the fields of a printed line.
ghost use Rattle.std.specs.Prelude.{[], ◌∷◌, ◌++◌, ◌+◌, ◌*◌, ◌≤◌, length};
ghost use Rattle.plan.specs.Line.{tab};
ghost use Rattle.events.specs.AnswerLine.{in_decimal, in_hex};
ghost use Rattle.events.specs.Read.{Put};

use crate::digits::hex;
use octets::put_at;
use plan_lines::TAB;

// The most digits of a number below 2^64.
const DIGITS: usize = 20;

// A number in decimal; answers the place behind it.
// Stays a `while`: how many digits there are shows only when the first of them is left.
pub fn put_decimal(out: &mut [u8], at: usize, x: u64) -> usize
    requires { at + 20 ≤ length out.old }
    ensures { Put (in_decimal x) at result out.old out.new }
{
    let mut text = [b'0'; DIGITS];
    let mut i = DIGITS - 1;
    let mut rest = x;
    while 10 <= rest {
        text[i] = b'0' + (rest % 10) as u8;
        rest /= 10;
        i -= 1;
    }
    text[i] = b'0' + rest as u8;
    put_at(out, at, &text[i..]);
    at + (DIGITS - i)
}

// A word and the tab behind it.
pub fn put_word(out: &mut [u8], at: usize, word: &[u8]) -> usize
    requires { at + length word.now + 1 ≤ length out.old }
    ensures { Put (word.now ++ (tab ∷ [])) at result out.old out.new }
{
    put_at(out, at, word);
    let end = at + word.len();
    out[end] = TAB;
    end + 1
}

// A number and the tab behind it.
pub fn put_number(out: &mut [u8], at: usize, x: u64) -> usize
    requires { at + 21 ≤ length out.old }
    ensures { Put (in_decimal x ++ (tab ∷ [])) at result out.old out.new }
{
    let behind = put_decimal(out, at, x);
    out[behind] = TAB;
    behind + 1
}

// Octets in hex, or `-`.
pub fn put_hex(out: &mut [u8], at: usize, octets: &[u8]) -> usize
    requires { at + 2 * length octets.now + 1 ≤ length out.old }
    ensures { Put (in_hex octets.now) at result out.old out.new }
{
    if octets.len() == 0 {
        out[at] = b'-';
        return at + 1;
    }
    hex(&mut out[at..], octets);
    at + 2 * octets.len()
}
