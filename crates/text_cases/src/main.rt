// Converts the texts that stand in frames on standard input, and prints the answer of each call, the byte at fault and what the lent output
// holds.
#![tactic(auto)]

use std::io;

fn main(rt: HostRuntime) -> io::Result<()> {
    cases::answer_all(&rt, |case| cases::answer_text(&rt, case))
}
