// The fields of a line: where they end, numbers, addresses, words.
#![tactic(auto, using(crate::proofs::Spelt::same_reads), unfolding(octets::specs::Text::text, plan::specs::Line::listed, plan::specs::Line::port_kinds, plan::specs::Line::flow_kinds, plan::specs::Line::mp_kinds, crate::specs::Fields::found))]

ghost use Rattle.std.specs.Prelude.{◌≡◌, Some, None, cond, ◌≤◌, ◌^◌, min, length, drop};
ghost use Rattle.plan.specs.Line.{is_number, is_address, number_in, address_in, listed, port_kinds, flow_kinds, mp_kinds};
ghost use Rattle.plan_lines.specs.CappedLine.{first_in, end_of, capped};
ghost use Rattle.plan_lines.specs.Fields.{value_of, digits_on, hex_on, found};

use codec::{C_TAGGED, ENNI, S_TAGGED, UNI, UNTAGGED};
use plan::{DOWN, MIP, UP};

const HIGHEST_HELD: u64 = 9999;

const ADDRESS_DIGITS: usize = 12;

// Where an octet stands first.
#[tactic(auto, unfolding(crate::specs::CappedLine::first_in))]
fn first_of(s: &[u8], by: u8) -> Option<usize>
    ensures { result ≡ first_in by s.now }
{
    s.iter().position(|x| *x == by)
}

// Where the first octet `by` stands in s from `from` on, or the end of s.
pub fn end_of(s: &[u8], from: usize, by: u8) -> usize
    requires { from ≤ length s.now }
    ensures { (result ≡ end_of by from (drop from s.now)) × ((from ≤ result) × (result ≤ length s.now)) }
{
    match first_of(&s[from..], by) {
        Some(n) => from + n,
        None => s.len(),
    }
}

// What an octet counts as a hexadecimal digit.
fn value_of(x: u8) -> Option<u32>
    ensures { result ≡ value_of x }
{
    match x {
        b'0'..=b'9' => Some(u32::from(x - b'0')),
        b'a'..=b'f' => Some(u32::from(x - b'a') + 10),
        _ => None,
    }
}

// Decimal digits, of any count.
fn digits_of(f: &[u8], most: u64) -> Option<u64>
    requires { most ≤ 2 ^ 32 }
    ensures { result ≡ digits_on most 0 f.now }
{
    let mut so: u64 = 0;
    for x in f {
        let d = value_of(*x)?;
        if 10 <= d {
            return None;
        }
        so = (so * 10 + u64::from(d)).min(most);
    }
    Some(so)
}

// A decimal number without leading zeros, of any count of digits; or the most that is asked for, where it is above.
pub fn amount_of(f: &[u8], most: u64) -> Option<u64>
    requires { most ≤ 2 ^ 32 }
    ensures { result ≡ cond (is_number f.now) (Some (min (number_in f.now) most)) None }
{
    match f {
        [b'0'] => Some(0),
        [] | [b'0', ..] => None,
        _ => digits_of(f, most),
    }
}

// A number as it is held: at most 9,999.
pub fn number_of(f: &[u8]) -> Option<u32>
    ensures { result ≡ cond (is_number f.now) (Some (capped (number_in f.now))) None }
{
    let n = amount_of(f, HIGHEST_HELD)?;
    Some(n as u32)
}

// Hexadecimal digits, in lower case.
fn hex_of(f: &[u8]) -> Option<u64>
    requires { length f.now ≤ 12 }
    ensures { result ≡ hex_on 0 f.now }
{
    let mut so: u64 = 0;
    for x in f {
        let d = value_of(*x)?;
        so = so * 16 + u64::from(d);
    }
    Some(so)
}

// 12 lower-case hex digits.
pub fn address_of(f: &[u8]) -> Option<u64>
    ensures { result ≡ cond (is_address f.now) (Some (address_in f.now)) None }
{
    if f.len() != ADDRESS_DIGITS {
        return None;
    }
    hex_of(f)
}

// Stays a number: the plan's definitions (`listed`) and the image hold kinds as numbers.
pub fn port_kind(f: &[u8]) -> Option<u8>
    ensures { result ≡ found (listed port_kinds f.now) }
{
    match f {
        b"uni" => Some(UNI),
        b"enni" => Some(ENNI),
        _ => None,
    }
}

pub fn flow_kind(f: &[u8]) -> Option<u8>
    ensures { result ≡ found (listed flow_kinds f.now) }
{
    match f {
        b"u" => Some(UNTAGGED),
        b"c" => Some(C_TAGGED),
        b"s" => Some(S_TAGGED),
        _ => None,
    }
}

pub fn mp_kind(f: &[u8]) -> Option<u8>
    ensures { result ≡ found (listed mp_kinds f.now) }
{
    match f {
        b"up" => Some(UP),
        b"down" => Some(DOWN),
        b"mip" => Some(MIP),
        _ => None,
    }
}
