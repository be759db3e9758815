// Follows the runs that stand in frames on standard input, and prints a line for each attempt and one for the end of each run.
#![tactic(auto)]

use std::io;

fn main(rt: HostRuntime) -> io::Result<()> {
    cases::answer_all(&rt, |case| cases::answer_run(&rt, case))
}
