// Checks the plans that stand in frames on standard input, and prints the answer and the fault of each, and what both calls left of what
// was lent.
#![tactic(auto)]

use std::io;

fn main(rt: HostRuntime) -> io::Result<()> {
    cases::answer_all(&rt, |case| cases::answer_plan(&rt, case))
}
