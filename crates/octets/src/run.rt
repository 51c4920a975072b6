// Runs of octets: copied from one slice into another, tested, compared.
ghost use Rattle.std.specs.Prelude.{◌≡◌, ◌+◌, ◌≤◌, length, drop};
ghost use Rattle.octets.specs.Octets.{over, splice, all_zero, same};

use crate::low::low8;

// How many octets are tested at once.
const WORD: usize = 8;

// Copies src over the front of out.
// Stays a loop: of the library's copy_from_slice the compiler makes a call of memmove, and docs/HOST.md promises that there is none.
pub fn copy_into(out: &mut [u8], src: &[u8])
    requires { length src.now ≤ length out.old }
    ensures { out.new ≡ over src.now out.old }
{
    for i in 0..src.len() {
        out[i] = src[i];
    }
}

// Copies src into out from a place on.
pub fn put_at(out: &mut [u8], at: usize, src: &[u8])
    requires { at + length src.now ≤ length out.old }
    ensures { out.new ≡ splice at src.now out.old }
{
    copy_into(&mut out[at..], src);
}

// Are the octets from a place on zero? By OR, without a branch in the loop.
fn zero_from(s: &[u8], at: usize) -> bool
    requires { at ≤ length s.now }
    ensures { result ≡ all_zero (drop at s.now) }
{
    let mut acc = 0;
    for i in at..s.len() {
        acc |= s[i];
    }
    acc == 0
}

// Is every octet zero? By words of eight, and what is left by octets.
pub fn all_zero(s: &[u8]) -> bool
    ensures { result ≡ all_zero s.now }
{
    let words = s.len() / WORD;
    let mut acc = 0;
    for i in 0..words {
        acc |= low8(s, i * WORD);
    }
    acc == 0 && zero_from(s, words * WORD)
}

// Are the two runs the same?
// Stays a loop: of `a == b` no operand makes the mistake that each octet is compared with the first alone.
pub fn same_octets(a: &[u8], b: &[u8]) -> bool
    ensures { result ≡ same a.now b.now }
{
    if a.len() != b.len() {
        return false;
    }
    for i in 0..a.len() {
        if a[i] != b[i] {
            return false;
        }
    }
    true
}
