// Hexadecimal digits, in lower case: tested, read two an octet, and written.
ghost use Rattle.std.specs.Prelude.{◌≡◌, true, ◌*◌, ◌≤◌, ◌<◌, length};
ghost use Rattle.octets.specs.Octets.{over};
ghost use Rattle.octets.specs.Lists.{every};
ghost use Rattle.octets.specs.Text.{digit};
ghost use Rattle.plan.specs.WrittenPlan.{hex_digit};
ghost use Rattle.plan_lines.specs.Fields.{is_hex};
ghost use Rattle.events.specs.Event.{unhexed};
ghost use Rattle.events.specs.AnswerLine.{hexed};

// What is taken from a letter, or added to it: `a` counts 10.
const BELOW_LETTERS: u8 = 87;

fn is_digit(x: u8) -> bool
    ensures { result ≡ is_hex x }
{
    match x {
        b'0'..=b'9' => true,
        b'a'..=b'f' => true,
        _ => false,
    }
}

// Is every octet a digit?
// Stays a loop: `all`, which stops at the first that is none, takes about ten times as long, as it branches at each octet.
pub fn all_digits(f: &[u8]) -> bool
    ensures { result ≡ every is_hex f.now }
{
    let mut all = true;
    for x in f {
        all = all & is_digit(*x);
    }
    all
}

// What a digit counts.
fn value_of(x: u8) -> u8
    requires { is_hex x ≡ true }
    ensures { (result ≡ digit x) × (result < 16) }
{
    if x <= b'9' {
        x - b'0'
    } else {
        x - BELOW_LETTERS
    }
}

// The octets that digits are, two each.
pub fn unhex(room: &mut [u8], f: &[u8])
    requires { (every is_hex f.now ≡ true) × (length f.now ≤ 2 * length room.old) }
    ensures { room.new ≡ over (unhexed f.now) room.old }
{
    for i in 0..f.len() / 2 {
        room[i] = value_of(f[2 * i]) * 16 + value_of(f[2 * i + 1]);
    }
}

fn digit_of(d: u8) -> u8
    requires { d < 16 }
    ensures { result ≡ hex_digit d }
{
    if d < 10 { b'0' + d } else { BELOW_LETTERS + d }
}

// The digits of octets, two each.
pub fn hex(out: &mut [u8], octets: &[u8])
    requires { 2 * length octets.now ≤ length out.old }
    ensures { out.new ≡ over (hexed octets.now) out.old }
{
    for i in 0..octets.len() {
        out[2 * i] = digit_of(octets[i] / 16);
        out[2 * i + 1] = digit_of(octets[i] % 16);
    }
}
