// One line of a plan's text.
#![tactic(auto, using(crate::proofs::Spelt::reads_same, crate::proofs::Words::port_word, crate::proofs::Words::flow_word, crate::proofs::Words::mp_word), unfolding(octets::specs::Text::text, plan::specs::Line::by_word, plan::specs::Line::field, crate::specs::CappedLine::said))]

ghost use Rattle.std.specs.Prelude.{◌≡◌, [], ◌∷◌, length, MatchOption};
ghost use Rattle.plan.specs.Line.{tab, parted, as_port, as_flow, as_mp, by_word, line_of};
ghost use Rattle.plan_lines.specs.CappedLine.{said};

use crate::fields::{address_of, end_of, flow_kind, mp_kind, number_of, port_kind};
use crate::{Said, TAB};

// Three fields; none where there are more or fewer.
fn three_of(s: &[u8]) -> Option<(&[u8], &[u8], &[u8])>
    ensures { MatchOption result (length (parted tab s.now) ≡ 3 → ⊥) (λ p.
        parted tab s.now ≡ p.0.now ∷ p.1.now ∷ p.2.now ∷ []) }
{
    let one = end_of(s, 0, TAB);
    if one == s.len() {
        return None;
    }
    let two = end_of(s, one + 1, TAB);
    if two == s.len() {
        return None;
    }
    if end_of(s, two + 1, TAB) != s.len() {
        return None;
    }
    Some((&s[0..one], &s[one + 1..two], &s[two + 1..]))
}

// A line of each kind, by its fields behind the word. The word itself plays no part: [] stands for it.
fn port_line(number: &[u8], kind: &[u8], address: &[u8]) -> Option<Said>
    ensures { result ≡ said (as_port ([] ∷ number.now ∷ kind.now ∷ address.now ∷ [])) }
{
    let kind = port_kind(kind)?;
    let number = number_of(number)?;
    let address = address_of(address)?;
    Some(Said::OfPort(number, kind, address))
}

fn flow_line(number: &[u8], port: &[u8], kind: &[u8], vid: &[u8]) -> Option<Said>
    ensures { result
        ≡ said (as_flow ([] ∷ number.now ∷ port.now ∷ kind.now ∷ vid.now ∷ [])) }
{
    let kind = flow_kind(kind)?;
    let number = number_of(number)?;
    let port = number_of(port)?;
    let vid = number_of(vid)?;
    Some(Said::OfFlow(number, port, kind, vid))
}

fn mp_line(flow: &[u8], kind: &[u8], level: &[u8]) -> Option<Said>
    ensures { result ≡ said (as_mp ([] ∷ flow.now ∷ kind.now ∷ level.now ∷ [])) }
{
    let kind = mp_kind(kind)?;
    let flow = number_of(flow)?;
    let level = number_of(level)?;
    Some(Said::OfMp(flow, kind, level))
}

// The same, by what stands behind the first tab.
fn port_of(rest: &[u8]) -> Option<Said>
    ensures { result ≡ said (as_port ([] ∷ parted tab rest.now)) }
{
    let (number, kind, address) = three_of(rest)?;
    port_line(number, kind, address)
}

fn flow_of(rest: &[u8]) -> Option<Said>
    ensures { result ≡ said (as_flow ([] ∷ parted tab rest.now)) }
{
    let end = end_of(rest, 0, TAB);
    if end == rest.len() {
        return None;
    }
    let (port, kind, vid) = three_of(&rest[end + 1..])?;
    flow_line(&rest[0..end], port, kind, vid)
}

fn mp_of(rest: &[u8]) -> Option<Said>
    ensures { result ≡ said (as_mp ([] ∷ parted tab rest.now)) }
{
    let (flow, kind, level) = three_of(rest)?;
    mp_line(flow, kind, level)
}

// A line by its word and what stands behind the first tab.
fn worded(word: &[u8], rest: &[u8]) -> Option<Said>
    ensures { result ≡ said (by_word (word.now ∷ parted tab rest.now)) }
{
    match word {
        b"port" => port_of(rest),
        b"flow" => flow_of(rest),
        b"mp" => mp_of(rest),
        _ => None,
    }
}

// None for a line that is no record.
pub fn line_of(line: &[u8]) -> Option<Said>
    ensures { result ≡ said (line_of line.now) }
{
    let end = end_of(line, 0, TAB);
    if end == line.len() {
        return None;
    }
    worded(&line[0..end], &line[end + 1..])
}
