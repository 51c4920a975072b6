// What stands behind the rows of a table.
ghost use Rattle.std.specs.Prelude.{◌≡◌, ◌≤◌, length, drop};
ghost use Rattle.octets.specs.Octets.{all_zero};

use octets::all_zero;

// How many octets of a table are tested at once: of the ports', and of a longer one.
pub const SHORT_RUN: usize = 64;

pub const LONG_RUN: usize = 256;

// Are all octets from a place on 0? By runs, as the compiler makes much of a run of known length. The last one ends where the table
// does, and so goes over some octets again. Stays a while loop: it goes on by a run and not by one, and the last run is wanted besides.
pub fn rest_zero(t: &[u8], at: usize, run: usize) -> bool
    requires { (at ≤ length t.now) × ((length t.now ≤ 4096) × ((1 ≤ run) × (run ≤ 256))) }
    ensures { result ≡ all_zero (drop at t.now) }
{
    let mut i = at;
    while i + run <= t.len() {
        if !all_zero(&t[i..i + run]) {
            return false;
        }
        i += run;
    }
    if i == t.len() {
        return true;
    }
    if at + run <= t.len() {
        return all_zero(&t[t.len() - run..]);
    }
    all_zero(&t[at..])
}
