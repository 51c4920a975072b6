// The octets beside the flows' numbers: places, and which flows are allowed.
ghost use Rattle.std.specs.Prelude.{◌≡◌, cond, ◌&&◌, ◌||◌, ◌≤◌, eqb, leb, length};
ghost use Rattle.octets.specs.Lists.{count};
ghost use Rattle.state_tables.specs.Pass.{ok_allowed};

fn mark(x: u8) -> u8
    ensures { (result ≡ cond (leb 1 x) 1 0) × (result ≤ 1) }
{
    u8::from(x != 0)
}

// How many octets are not 0?
pub fn used(places: &[u8]) -> usize
    requires { length places.now ≤ 4096 }
    ensures { result ≡ count (leb 1) places.now }
{
    let mut n = 0;
    for place in places {
        n += usize::from(mark(*place));
    }
    n
}

// 1 where the octet of an allowed flow is wrong beside its place.
fn wrong(allowed: u8, place: u8) -> u8
    ensures { result ≡ cond (eqb allowed 0 || (eqb allowed 1 && leb 1 place)) 0 1 }
{
    u8::from(mark(place) < allowed)
}

// By OR, without a branch in the loop.
pub fn allowed_fits(allowed: &[u8], places: &[u8]) -> bool
    requires { length allowed.now ≤ length places.now }
    ensures { result ≡ ok_allowed allowed.now places.now }
{
    let mut bad = 0;
    for i in 0..allowed.len() {
        bad |= wrong(allowed[i], places[i]);
    }
    bad == 0
}
