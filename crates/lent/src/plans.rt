// Plans from any hand checked with records lent, and what each call left of them, for the test program edit_cases. A case is the number of
// lent records (16 bits), the mode (0 the paper's, any other number settled), the old sheet behind its length, the new one behind its
// length, and the plan. Its line, of the check: number, sheet, state, offset; lent records that are zero, and lent records that are as they
// were. Then of the fault, with records lent anew: condition, code, ready set, plan state; fourteen counts; old state, new state; again
// records that are zero, and that are as they were.
ghost use Rattle.std.specs.Prelude.{◌≡◌, ◌≤◌, length, replicate};
ghost use Rattle.moves.specs.Modes.{mode_of};
ghost use Rattle.table.specs.Records.{blank};
ghost use Rattle.edits.specs.Check.{check_plan_of, plan_fault_of};
ghost use Rattle.lent.specs.Gives.{before};
ghost use Rattle.lent.specs.Checks.{GivesCheck, GivesFault};

use crate::{Outcome, lend_records};
use std::io;
use std::io::Print;

// Checks a plan with so many records lent.
fn check_lent(
    mode: moves::Mode,
    old: &[u8],
    new: &[u8],
    plan: &[u8],
    count: usize,
) -> Outcome<connect::Answer>
    requires few { count ≤ 5000 }
    ensures { GivesCheck (check_plan_of blank (mode_of mode) old.now new.now plan.now
        (replicate count before)) result }
{
    lend_records(
        count,
        |work| check_plan::check_plan(mode, old, new, plan, work),
    )
}

// Asks what is at fault in a plan with so many records lent.
fn fault_lent(
    mode: moves::Mode,
    old: &[u8],
    new: &[u8],
    plan: &[u8],
    count: usize,
) -> Outcome<edits_walk::Fault>
    requires few { count ≤ 5000 }
    ensures { GivesFault (plan_fault_of blank (mode_of mode) old.now new.now plan.now
        (replicate count before)) result }
{
    lend_records(
        count,
        |work| check_plan::plan_fault(mode, old, new, plan, work),
    )
}

// Prints the figures of a check.
fn print_check(rt: &impl Print, outcome: Outcome<connect::Answer>) -> io::Result<()> {
    let Outcome { answer, zero, same } = outcome;
    print!(rt;
        "{} {} {} {}",
        answer.number, answer.sheet, answer.state, answer.offset
    )?;
    print!(rt; " {zero} {same} ")
}

// Prints the figures of a fault, to the end of the line.
fn print_fault(rt: &impl Print, outcome: Outcome<edits_walk::Fault>) -> io::Result<()> {
    let Outcome {
        answer: fault,
        zero,
        same,
    } = outcome;
    let blame = fault.blame;
    print!(rt;
        "{} {} {} {}",
        blame.condition, blame.code, blame.ready, fault.state
    )?;
    let counts = fault.at.buffer.counts;
    framing::print_figures(rt, &counts)?;
    println!(rt; " {} {} {zero} {same}", fault.at.old, fault.at.new)
}

// Prints the line of a case.
pub fn answer(rt: &impl Print, case: &[u8]) -> io::Result<()> {
    if case.len() < 3 {
        return Ok(());
    }
    let count = little_endian::word_at(case, 0) as usize;
    if 5000 < count {
        return Ok(());
    }
    let mode = moves::Mode::from(case[2]);
    let Some((old, rest)) = framing::split_part(&case[3..]) else {
        return Ok(());
    };
    let Some((new, plan)) = framing::split_part(rest) else {
        return Ok(());
    };
    print_check(rt, check_lent(mode, old, new, plan, count))?;
    print_fault(rt, fault_lent(mode, old, new, plan, count))
}
