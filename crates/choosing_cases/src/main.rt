// Converts the choosing sheets that stand in frames on standard input, and prints the answer of each call and what the lent output holds.
#![tactic(auto)]

use std::io;

fn main(rt: HostRuntime) -> io::Result<()> {
    cases::answer_all(&rt, |case| cases::answer_choosing(&rt, case))
}
