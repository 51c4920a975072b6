// Is this a valid state's image?
ghost use Rattle.std.specs.Prelude.{◌≡◌, ◌&&◌, map, length, take, drop};
ghost use Rattle.octets.specs.Octets.{all_zero};
ghost use Rattle.octets.specs.Lists.{distinct};
ghost use Rattle.state.specs.Image.{port_in, rows_in, ok_image};
ghost use Rattle.state_tables.specs.Pass.{ok_ports, ok_flows};

use crate::sessions::sessions_fit;
use octets::{all_zero, low4, low8};
use state::{
    ALLOWED_AT, FLOWS_AT, IMAGE_LENGTH, Image, LATER_PORTS_OPEN_AT, PLACES_AT, PLACES_END,
    PORT_COUNTERS_AT, PORTS_AT, PORTS_OPEN_AT, SESSIONS_AT, SHARED_ADDRESS_AT, UNIT_FLAG_AT,
};
use state_tables::{addresses_differ, allowed_fits, flows_fit, ports_fit};

// Are the octets behind the clock 0? By words: of a run of 28 octets the compiler makes long code.
fn head_zero(b: &Image) -> bool
    ensures { result ≡ all_zero (take 28 (drop 4 b.now)) }
{
    low4(b, UNIT_FLAG_AT) == 0
        && low8(b, SHARED_ADDRESS_AT) == 0
        && low8(b, PORTS_OPEN_AT) == 0
        && low8(b, LATER_PORTS_OPEN_AT) == 0
}

// Are the octets 0 that have no meaning yet, before and behind the flows' marks and before the sessions?
fn free_zero(b: &Image) -> bool
    ensures { result
        ≡ (all_zero (take 28 (drop 4 b.now))
        && all_zero (take 32 (drop 96 b.now))
        && all_zero (take 256 (drop 1280 b.now))) }
{
    head_zero(b)
        && all_zero(&b[PLACES_END..PORTS_AT])
        && all_zero(&b[PORT_COUNTERS_AT..SESSIONS_AT])
}

fn plan_fits(b: &Image) -> bool
    ensures { result
        ≡ (ok_ports (take 128 (drop 128 b.now))
        && distinct (map (λ p. p.address) (rows_in 8 16 port_in (take 128 (drop 128 b.now))))
        && ok_flows b.now (take 1024 (drop 256 b.now))) }
{
    ports_fit(&b[PORTS_AT..FLOWS_AT])
        && addresses_differ(&b[PORTS_AT..FLOWS_AT])
        && flows_fit(b, &b[FLOWS_AT..PORT_COUNTERS_AT])
}

// Are the octets of an image those of a valid state?
pub fn is_valid(b: &Image) -> bool
    ensures { result ≡ ok_image b.now }
{
    free_zero(b)
        && plan_fits(b)
        && allowed_fits(&b[ALLOWED_AT..PLACES_AT], &b[PLACES_AT..PLACES_END])
        && sessions_fit(b, &b[SESSIONS_AT..IMAGE_LENGTH])
}

pub fn is_image(b: &[u8]) -> bool
    ensures { result ≡ ok_image b.now }
{
    match b.as_array() {
        Some(image) => is_valid(image),
        None => false,
    }
}
