// Steps the plans that stand in frames on standard input, and prints number and next state for each.
#![tactic(auto)]

use std::io;

fn main(rt: HostRuntime) -> io::Result<()> {
    cases::answer_all(&rt, |case| cases::answer_step(&rt, case))
}
