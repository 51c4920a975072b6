// The bench, played through the seven calls: BENCH-1 to BENCH-12, the other cases, and mistakes of earlier units.
#![tactic(auto)]

mod bench;
mod frames;
mod report;
mod script;
mod steps;

use bench::Bench;
use std::io;

fn main(rt: HostRuntime) -> io::Result<()> {
    println!(rt;
        "Port 1 is a UNI, 02-00-00-00-00-01; flow 1 is c 20, flow 2 c 30; up MP, level 4 on flow 1; frames come from the CEN"
    )?;
    Bench::new().play_all(&rt)
}
