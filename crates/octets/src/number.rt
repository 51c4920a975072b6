// Numbers of 2, 4 and 6 octets in network order, read at a place of a slice and as octets. (The compiler makes one load and one turn of
// each list of octets, and so in two parts of six.)
ghost use Rattle.std.specs.Prelude.{◌≡◌, ◌+◌, ◌<◌, ◌≤◌, ◌^◌, length, drop};
ghost use Rattle.octets.specs.Octets.{number, octets};

pub fn number2(s: &[u8], at: usize) -> usize
    requires { at + 2 ≤ length s.now }
    ensures { (result ≡ number 2 (drop at s.now)) × (result < 2 ^ 16) }
{
    usize::from(u16::from_be_bytes([s[at], s[at + 1]]))
}

pub fn number4(s: &[u8], at: usize) -> u32
    requires { at + 4 ≤ length s.now }
    ensures { result ≡ number 4 (drop at s.now) }
{
    u32::from_be_bytes([s[at], s[at + 1], s[at + 2], s[at + 3]])
}

pub fn number6(s: &[u8], at: usize) -> u64
    requires { at + 6 ≤ length s.now }
    ensures { (result ≡ number 6 (drop at s.now)) × (result < 2 ^ 48) }
{
    number2(s, at) as u64 * 4294967296 + u64::from(number4(s, at + 2))
}

pub fn octets2(x: usize) -> [u8; 2]
    ensures { result ≡ octets 2 x }
{
    let [.., high, low] = x.to_be_bytes();
    [high, low]
}

pub fn octets4(x: u32) -> [u8; 4]
    ensures { result ≡ octets 4 x }
{
    x.to_be_bytes()
}

pub fn octets6(x: u64) -> [u8; 6]
    ensures { result ≡ octets 6 x }
{
    let [a, b] = octets2((x / 4294967296) as usize);
    let [c, d, e, f] = octets4((x % 4294967296) as u32);
    [a, b, c, d, e, f]
}
