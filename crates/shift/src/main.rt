// A recorded shift, run on a desk. Standard input: the plan file's name, then a line for each event; standard output: a line for each.
#![tactic(auto)]

mod desk;
mod files;
mod input;

use desk::Desk;
use input::Input;

fn main(rt: HostRuntime) {
    let mut input = Input::new(rt.stdin());
    let mut desk = Desk::new(rt.stdout());
    input.first_line();
    if desk.is_ready(&rt, input.line()) {
        input.serve_line();
        desk.run_all(&mut input);
    }
}
