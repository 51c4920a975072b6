// Numbers of 2, 4, 6 and 8 octets with the lowest octet first, read at a place of a slice, and written at a place. (The compiler makes one
// load of each list of octets.)
ghost use Rattle.std.specs.Prelude.{◌≡◌, ◌+◌, ◌<◌, ◌≤◌, ◌^◌, length, drop};
ghost use Rattle.octets.specs.Octets.{low_number, low_octets, splice};

use super::run::put_at;

pub fn low2(s: &[u8], at: usize) -> u16
    requires { at + 2 ≤ length s.now }
    ensures { result ≡ low_number 2 (drop at s.now) }
{
    u16::from_le_bytes([s[at], s[at + 1]])
}

pub fn low4(s: &[u8], at: usize) -> u32
    requires { at + 4 ≤ length s.now }
    ensures { result ≡ low_number 4 (drop at s.now) }
{
    u32::from_le_bytes([s[at], s[at + 1], s[at + 2], s[at + 3]])
}

pub fn low6(s: &[u8], at: usize) -> u64
    requires { at + 6 ≤ length s.now }
    ensures { (result ≡ low_number 6 (drop at s.now)) × (result < 2 ^ 48) }
{
    u64::from(low4(s, at)) + u64::from(low2(s, at + 4)) * 4294967296
}

pub fn low8(s: &[u8], at: usize) -> u64
    requires { at + 8 ≤ length s.now }
    ensures { result ≡ low_number 8 (drop at s.now) }
{
    u64::from_le_bytes([
        s[at],
        s[at + 1],
        s[at + 2],
        s[at + 3],
        s[at + 4],
        s[at + 5],
        s[at + 6],
        s[at + 7],
    ])
}

pub fn put_low4(out: &mut [u8], at: usize, x: u32)
    requires { at + 4 ≤ length out.old }
    ensures { out.new ≡ splice at (low_octets 4 x) out.old }
{
    put_at(out, at, &x.to_le_bytes());
}
