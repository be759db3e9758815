// Asks for the rows of the cases that stand in frames on standard input, and prints what each is, or why there is none.
#![tactic(auto)]

use std::io;

fn main(rt: HostRuntime) -> io::Result<()> {
    cases::answer_all(&rt, |case| cases::answer_row(&rt, case))
}
