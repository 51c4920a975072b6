// Standard input, read into a buffer and cut into lines.
ghost use Rattle.std.specs.Prelude.{◌≡◌, ◌+◌, ◌-◌, ◌≤◌, length, slice_range};
ghost use Rattle.shift.specs.Inside.{Inside};

use events_shift::keep;
use plan_lines::{LF, end_of};
use std::io::Read;

// What is read at once: few calls of the system move much.
pub const LARGE: usize = 65536;

// What was read and not yet served stands in the buffer from one place up to another.
#[derive(Drop)]
pub struct Input<R> {
    source: R,
    buffer: [u8; LARGE],
    from: usize,
    upto: usize,
    // Stays a flag: what was read counts whether or not more will come.
    ended: bool,
    ghost inside: { Inside from upto buffer },
}

impl<R: Read> Input<R> {
    pub fn new(source: R) -> Self {
        Input {
            source,
            buffer: [0; LARGE],
            from: 0,
            upto: 0,
            ended: false,
        }
    }

    // What was read and not yet served.
    pub fn left(&self) -> &[u8]
        ensures octets { result.now ≡ slice_range self.now.buffer self.now.from self.now.upto }
        ensures len { length result.now ≡ self.now.upto - self.now.from }
    {
        &self.buffer[self.from..self.upto]
    }

    // The first line of it: up to its LF, or else all of it.
    pub fn line(&self) -> &[u8]
        ensures { length result.now ≤ self.now.upto - self.now.from }
    {
        let left = self.left();
        &left[..end_of(left, 0, LF)]
    }

    pub fn has_ended(&self) -> bool
        ensures { result ≡ self.now.ended }
    {
        self.ended
    }

    // So many octets of it are served.
    pub fn serve(&mut self, n: usize)
        requires { n ≤ self.old.upto - self.old.from }
        ensures behind { self.new.from ≡ self.old.from + n }
        ensures upto { self.new.upto ≡ self.old.upto }
        ensures buffer { self.new.buffer ≡ self.old.buffer }
    {
        self.from += n;
    }

    // The first line is served, and its LF with it.
    pub fn serve_line(&mut self)
        ensures upto { self.new.upto ≡ self.old.upto }
        ensures buffer { self.new.buffer ≡ self.old.buffer }
    {
        let n = self.left().len().min(self.line().len() + 1);
        self.serve(n);
    }

    // Reads on, behind what is kept of the line that has not ended.
    pub fn read_on(&mut self) {
        let buffer = &mut self.buffer[..];
        let n = keep(buffer, self.from, self.upto);
        let got = read_some(&mut self.source, &mut buffer[n..]);
        self.from = 0;
        self.upto = n + got;
        self.ended = got == 0;
    }

    // Reads until there is a line, or the input has ended.
    pub fn first_line(&mut self) {
        for _ in 0..u64::MAX {
            if self.ended || self.left().contains(&LF) {
                break;
            }
            self.read_on();
        }
    }
}

// An input that fails has ended.
pub fn read_some<R: Read>(source: &mut R, room: &mut [u8]) -> usize
    ensures { result ≤ length room.old }
{
    source.read(room).unwrap_or(0)
}
