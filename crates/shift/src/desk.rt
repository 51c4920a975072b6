// The run: the plan made, then every line served as it arrives.
use crate::files::{PLAN_ROOM, plan_text};
use crate::input::{Input, LARGE};
use events::FRAME_ROOM;
use events_shift::{OUT_ROOM, make_unit, serve_lines, step};
use std::io::{Read, Write};
use std::rt::Files;

// No input has as many lines.
const MOST_LINES: u64 = 1 << 63;

const IMAGE: usize = 4096;

// The unit, the number of the next line, and what its step goes through: a frame's octets, what a call sends, and the lines that
// answer.
#[derive(Drop)]
pub struct Desk<W> {
    sink: W,
    image: [u8; IMAGE],
    number: u64,
    frame: [u8; FRAME_ROOM],
    sent: [u8; OUT_ROOM],
    out: [u8; LARGE],
}

impl<W: Write> Desk<W> {
    pub fn new(sink: W) -> Self {
        Desk {
            sink,
            image: [0; IMAGE],
            number: 1,
            frame: [0; FRAME_ROOM],
            sent: [0; OUT_ROOM],
            out: [0; LARGE],
        }
    }

    // The unit is made of the plan file that is named. A faulty plan is told, and there is no unit. The text is read where answers will
    // be written, so that it takes no room of its own.
    pub fn is_ready<F: Files>(&mut self, files: &F, name: &[u8]) -> bool {
        let (room, out) = self.out.split_at_mut(PLAN_ROOM);
        let text = plan_text(files, name, room);
        let told = make_unit(&mut self.image, text, out);
        if told == 0 {
            return true;
        }
        let _ = self.sink.write_all(&out[..told]);
        false
    }

    // The last line, which no LF ends.
    fn last_line(&mut self, line: &[u8]) {
        if line.is_empty() {
            return;
        }
        let n = step(
            &mut self.image,
            self.number,
            line,
            &mut self.frame,
            &mut self.sent,
            &mut self.out,
            0,
        );
        let _ = self.sink.write_all(&self.out[..n]);
    }

    // Where no line is whole, the input is read on; once it has ended, what is left is the last line. Answers whether the run goes on.
    fn go_on<R: Read>(&mut self, input: &mut Input<R>) -> bool {
        if input.has_ended() {
            self.last_line(input.left());
            return false;
        }
        input.read_on();
        true
    }

    // One turn: the lines that are whole are served, and their answers written before anything more is read. Answers whether the run
    // goes on.
    fn turn<R: Read>(&mut self, input: &mut Input<R>) -> bool {
        if MOST_LINES < self.number {
            return false;
        }
        let served = serve_lines(
            &mut self.image,
            input.left(),
            0,
            self.number,
            &mut self.frame,
            &mut self.sent,
            &mut self.out,
        );
        if served.at == 0 {
            return self.go_on(input);
        }
        input.serve(served.from);
        self.number = served.number;
        self.sink.write_all(&self.out[..served.at]).is_ok()
    }

    // Every line of the input. No run uses up the turns: each serves a line or reads an octet.
    pub fn run_all<R: Read>(&mut self, input: &mut Input<R>) {
        for _ in 0..u64::MAX {
            if !self.turn(input) {
                break;
            }
        }
    }
}
