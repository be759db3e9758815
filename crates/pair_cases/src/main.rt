// Connects the pairs that stand in frames on standard input, and prints the answer of each call and what it left of what was lent.
#![tactic(auto)]

use std::io;

fn main(rt: HostRuntime) -> io::Result<()> {
    cases::answer_all(&rt, |case| cases::answer_pair(&rt, case))
}
