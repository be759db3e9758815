// Checks the clients and services that stand in frames on standard input, and prints the answer of each check.
#![tactic(auto)]

use std::io;

fn main(rt: HostRuntime) -> io::Result<()> {
    cases::answer_all(&rt, |case| cases::answer_client(&rt, case))
}
