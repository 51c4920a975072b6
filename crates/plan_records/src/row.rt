// What ports and flows have in common: rows with a number, in the order of their keys.
ghost use Rattle.std.specs.Prelude.{◌≡◌, ℕ};
ghost use Rattle.plan.specs.Plan.{flow_key};
ghost use Rattle.plan.specs.Records.{held};
ghost use Rattle.plan_records.specs.Insertion.{place_of, inserted};

use plan::{Flow, Port, set_key};

// A row that is not used has number 0, and rows stand in ascending key.
pub trait Row: Copy {
    ghost number_of: { Self → ℕ };

    ghost key_of: { Self → ℕ };

    fn number(self) -> u8
        ensures { result ≡ number_of self };

    fn key(self) -> u32
        ensures { result ≡ key_of self };
}

// The key of a port is its number.
fn port_key(port: Port) -> u32
    ensures { result ≡ port.number }
{
    u32::from(port.number)
}

// The key of a flow is its port and frame set as one number.
fn flow_key(flow: Flow) -> u32
    ensures { result ≡ flow_key flow }
{
    set_key(flow.port, flow.kind, flow.vid)
}

impl Row for Port {
    ghost number_of = { λ p. p.number };

    ghost key_of = { λ p. p.number };

    fn number(self) -> u8 {
        self.number
    }

    fn key(self) -> u32 {
        port_key(self)
    }
}

impl Row for Flow {
    ghost number_of = { λ f. f.number };

    ghost key_of = { flow_key };

    fn number(self) -> u8 {
        self.number
    }

    fn key(self) -> u32 {
        flow_key(self)
    }
}

// The rows that are used: those up to the first that is not.
pub fn held<R: Row>(rows: &[R]) -> &[R]
    ensures { result.now ≡ held R.number_of rows.now }
{
    let end = rows
        .iter()
        .position(|r| r.number() == 0)
        .unwrap_or(rows.len());
    &rows[..end]
}

// How many rows that are used come before this key.
fn place_of<R: Row>(rows: &[R], key: u32) -> usize
    ensures { result ≡ place_of R.key_of key (held R.number_of rows.now) }
{
    let used = held(rows);
    used.iter()
        .position(|r| key <= r.key())
        .unwrap_or(used.len())
}

// The row put in at the place of a key, and the rows from there on moved one place on. The last row is dropped.
pub fn put<R: Row>(rows: &mut [R], key: u32, row: R)
    ensures { rows.new ≡ inserted (place_of R.key_of key (held R.number_of rows.old)) row rows.old }
{
    let mut next = row;
    for i in place_of(rows, key)..rows.len() {
        let moved = rows[i];
        rows[i] = next;
        next = moved;
    }
}
