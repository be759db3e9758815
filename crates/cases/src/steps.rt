// A case is a state (16 bits), a code and a plan. Its line: number and next state.
use plan::Stepped;
use std::io;
use std::io::Print;

// Prints the line of a case.
pub fn answer_step(rt: &impl Print, case: &[u8]) -> io::Result<()> {
    if case.len() < 3 {
        return Ok(());
    }
    let state = little_endian::word_at(case, 0);
    let Stepped { number, state } = Stepped::from(plan::step(&case[3..], state, case[2]));
    println!(rt; "{number} {state}")
}
