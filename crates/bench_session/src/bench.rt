// The bench: a unit, and what its calls are lent. A step's line has what is played and the answer.
use crate::frames::{Frame, MOST_BEHIND};
use crate::report::{Answer, OUT, Told};
use crate::script::{CASES, Case};
use crate::steps::{Step, TESTER};
use std::io::{self, Write};
use tmavolice::{
    tmavolice_allow, tmavolice_frame, tmavolice_make, tmavolice_notice, tmavolice_prohibit,
    tmavolice_restart, tmavolice_tick,
};

const IMAGE: usize = 4096;

// The addresses and the tag of a frame.
const HEAD: usize = 16;

#[derive(Drop)]
pub struct Bench {
    image: [u8; IMAGE],
    out: [u8; OUT],
}

impl Bench {
    pub fn new() -> Bench {
        Bench {
            image: [0; IMAGE],
            out: [0; OUT],
        }
    }

    pub fn play_all(&mut self, rt: &impl Print) -> io::Result<()> {
        for case in CASES {
            self.play_case(rt, case)?;
        }
        Ok(())
    }

    // Each part of a line is written by itself and at once: where the output takes no more, what came before it is there.
    fn play_case(&mut self, rt: &impl Print, case: Case) -> io::Result<()> {
        let mut parts = io::writer(rt);
        write!(parts, "{}\n  make, allow 1: ", case.title)?;
        let answer = self.start(case.plan);
        writeln!(parts, "{}", self.told(answer))?;
        for step in case.steps {
            write!(parts, "{step}")?;
            let answer = self.call(*step);
            writeln!(parts, "{}", self.told(answer))?;
        }
        Ok(())
    }

    fn told(&self, answer: Answer) -> Told<'_> {
        Told {
            answer,
            out: &self.out,
        }
    }

    // Flow 1 is allowed at clock 0. What make answers, unless it is done.
    fn start(&mut self, plan: &[u8]) -> Answer {
        match Answer::from(tmavolice_make(&mut self.image, plan, 0)) {
            Answer::Done => Answer::from(tmavolice_allow(&mut self.image, 1)),
            other => other,
        }
    }

    // The call itself.
    fn call(&mut self, step: Step) -> Answer {
        let image = &mut self.image;
        let out = &mut self.out;
        Answer::from(match step {
            Step::Ask(frame) => hand_in(image, frame, TESTER, 20, out),
            Step::AskFrom(source) => hand_in(image, Frame::Activate, source, 20, out),
            Step::AskShort => hand_in(image, Frame::Activate, TESTER, 20, &mut [0; OUT - 1]),
            Step::Vid30 => hand_in(image, Frame::Data, TESTER, 30, out),
            Step::Octets(octets) => tmavolice_frame(image, 1, 1, octets, out),
            Step::Tick(clock) => tmavolice_tick(image, clock),
            Step::Allow(flow) => tmavolice_allow(image, flow),
            Step::Prohibit(flow) => tmavolice_prohibit(image, flow),
            Step::Notice => tmavolice_notice(image, out),
            Step::Restart(clock) => tmavolice_restart(image, clock),
        })
    }
}

// A frame from 02-00-00-00-00-.. to the port, with a C-tag. It comes from the CEN.
fn hand_in(image: &mut [u8], frame: Frame, source: u8, vid: u8, out: &mut [u8]) -> u64 {
    let behind = frame.behind();
    let end = HEAD + behind.len();
    // Stays an array with its end beside it: a Vec would take an allocator, and may fail.
    let mut octets = [0; HEAD + MOST_BEHIND];
    octets[..HEAD].copy_from_slice(&[2, 0, 0, 0, 0, 1, 2, 0, 0, 0, 0, source, 0x81, 0, 0, vid]);
    octets[HEAD..end].copy_from_slice(behind);
    tmavolice_frame(image, 1, 1, &octets[..end], out)
}
