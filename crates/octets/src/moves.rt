// Octets of one slice, cleared or moved in place.
ghost use Rattle.std.specs.Prelude.{◌≡◌, ◌+◌, ◌-◌, ◌≤◌, length, replicate};
ghost use Rattle.octets.specs.Octets.{splice, moved_up, moved_down};

// Clears the octets from low up to high.
pub fn clear(b: &mut [u8], low: usize, high: usize)
    requires { (low ≤ high) × (high ≤ length b.old) }
    ensures { b.new ≡ splice low (replicate (high - low) 0) b.old }
{
    b[low..high].fill(0);
}

// Moves the octets from low up to high up by so many places, from the top down, so that none is overwritten before it is moved.
// Stays a loop, as the next: of the library's copy_within the compiler makes a call of memmove, and docs/HOST.md promises that there is none.
pub fn move_up(b: &mut [u8], by: usize, low: usize, high: usize)
    requires { (low ≤ high) × (high + by ≤ length b.old) }
    ensures { b.new ≡ moved_up by low high b.old }
{
    for moved in 0..high - low {
        let i = high - 1 - moved;
        b[i + by] = b[i];
    }
}

// The same down, from the bottom up.
pub fn move_down(b: &mut [u8], by: usize, low: usize, high: usize)
    requires { (by ≤ low) × ((low ≤ high) × (high ≤ length b.old)) }
    ensures { b.new ≡ moved_down by low high b.old }
{
    for i in low..high {
        b[i - by] = b[i];
    }
}
