// The ports' rows of an image: are they right?
ghost use Rattle.std.specs.Prelude.{◌≡◌, map, ◌+◌, ◌-◌, ◌*◌, ◌<◌, ◌≤◌, ◌^◌, eqb, length, drop};
ghost use Rattle.octets.specs.Lists.{some, distinct};
ghost use Rattle.plan.specs.Plan.{good_port};
ghost use Rattle.state.specs.Image.{port_in, rows_in};
ghost use Rattle.state_tables.specs.Pass.{port_fits, ok_ports};

use crate::rest::{SHORT_RUN, rest_zero};
use octets::{low6, low8};
use plan::{Port, good_address};
use state::{MOST_PORTS, PORT_FREE_AT, PORT_NUMBER_AT, PORT_WIDTH, read_port};

fn good_port(p: Port) -> bool
    requires { p.address < 2 ^ 48 }
    ensures { result ≡ good_port p }
{
    1 <= p.number && p.number <= 8 && 1 <= p.kind && p.kind <= 2 && good_address(p.address)
}

fn port_fits(t: &[u8], at: usize, last: u8) -> bool
    requires { at + 16 ≤ length t.now }
    ensures { result ≡ port_fits last (drop at t.now) }
{
    let p = read_port(t, at);
    if p.number <= last {
        return false;
    }
    good_port(p) && low8(t, at + PORT_FREE_AT) == 0
}

pub fn ports_fit(t: &[u8]) -> bool
    requires { length t.now ≡ 128 }
    ensures { result ≡ ok_ports t.now }
{
    let mut last: u8 = 0;
    for i in 0..MOST_PORTS {
        let at = i * PORT_WIDTH;
        if low8(t, at) == 0 {
            return last != 0 && rest_zero(t, at, SHORT_RUN);
        }
        if !port_fits(t, at, last) {
            return false;
        }
        last = t[at + PORT_NUMBER_AT];
    }
    last != 0
}

// Is this the address of a row from row i on?
fn address_again(t: &[u8], from: usize, address: u64) -> bool
    requires { (length t.now ≡ 128) × (from ≤ 8) }
    ensures { result
        ≡ some (eqb address) (map (λ p. p.address) (rows_in (8 - from) 16 port_in (drop (from * 16) t.now))) }
{
    for i in from..MOST_PORTS {
        let at = i * PORT_WIDTH;
        if low8(t, at) == 0 {
            return false;
        }
        if low6(t, at) == address {
            return true;
        }
    }
    false
}

pub fn addresses_differ(t: &[u8]) -> bool
    requires { length t.now ≡ 128 }
    ensures { result ≡ distinct (map (λ p. p.address) (rows_in 8 16 port_in t.now)) }
{
    for i in 0..MOST_PORTS {
        let at = i * PORT_WIDTH;
        if low8(t, at) == 0 {
            return true;
        }
        if address_again(t, i + 1, low6(t, at)) {
            return false;
        }
    }
    true
}
