// The connecting program: reads k, the first sheet behind its length and the second sheet, and prints the answer, the counts and the plan's
// moves. Document 01, "Cases".
#![tactic(auto)]

ghost use Rattle.std.specs.Prelude.{◌≡◌};
ghost use Rattle.connect.specs.Answers.{answer_of};
ghost use Rattle.connecting.specs.Own.{own_of};

use std::io;
use std::io::{Input, Print};

// A line for each move of a row of a state.
fn print_row(rt: &impl Print, state: u16, moves: &[u8]) -> io::Result<()> {
    for to in moves.chunks_exact(3) {
        println!(rt; "{state} {} {}", to[0], little_endian::word_at(to, 1))?;
    }
    Ok(())
}

// A line for each move of the rows that stand from the first byte on. The bytes of a plan never end before its rows do.
fn print_rows(rt: &impl Print, plan: &[u8], states: u16) -> io::Result<()> {
    let mut rest = plan;
    for state in 0..states {
        let Some((size, behind)) = rest.split_first() else {
            return Ok(());
        };
        let length = 3 * usize::from(*size);
        if behind.len() < length {
            return Ok(());
        }
        print_row(rt, state, &behind[..length])?;
        rest = &behind[length..];
    }
    Ok(())
}

// Connects two sheets with 1,024 lent records.
fn connect_own(k: u8, old: &[u8], new: &[u8], plan: &mut [u8]) -> connect::Answer
    ensures answered { answer_of result ≡ (own_of k old.now new.now plan.old).answer }
    ensures planned { plan.new ≡ (own_of k old.now new.now plan.old).plan }
{
    let mut work = [table::zero_record(); 1024];
    connect::connect(k, old, new, &mut work, plan)
}

// Connects two sheets with 32,768 lent plan bytes, and prints the outcome.
fn connect_sheets(rt: &impl Print, k: u8, old: &[u8], new: &[u8]) -> io::Result<()> {
    let mut plan = [0u8; 32768];
    let answer = connect_own(k, old, new, &mut plan);
    println!(rt;
        "answer {} {} {}",
        answer.number, answer.sheet, answer.state
    )?;
    println!(rt;
        "counts {} {} {}",
        answer.situations, answer.states, answer.rounds
    )?;
    if answer.number == 0 {
        print_rows(rt, &plan, answer.states)?;
    }
    Ok(())
}

// Prints what an input asks for. One too short to have a first sheet's length is refused as a first sheet that is too short.
fn answer_input(rt: &impl Print, input: &[u8]) -> io::Result<()> {
    if input.len() < 3 {
        println!(rt; "answer 1 1 0")?;
        return println!(rt; "counts 0 0 0");
    }
    let end = framing::part_end(input, 1);
    connect_sheets(rt, input[0], &input[3..end], &input[end..])
}

// Reads standard input, of which bytes past the first 8,192 are ignored, and prints what it asks for.
pub fn connect_input(rt: &(impl Input + Print)) -> io::Result<()> {
    let mut input = [0u8; 8192];
    let n = framing::read_full(&mut rt.reader(), &mut input)?;
    answer_input(rt, &input[..n])
}
