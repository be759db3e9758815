// Checks the sheets that stand in frames on standard input, and prints number, state and offset of the refusal for each.
#![tactic(auto)]

use std::io;

fn main(rt: HostRuntime) -> io::Result<()> {
    cases::answer_all(&rt, |case| cases::answer_sheet(&rt, case))
}
