// Pairs connected with records and plan bytes lent, and what the call left of them, for the test program pair_cases. A case is the number
// of lent records (16 bits), that of lent plan bytes (16 bits), the mode (0 the paper's, any other number settled), and the connecting
// program's input: k, the first sheet behind its length, and the second. Its line: number, sheet, state, offset; situations, plan states,
// rounds; plan length; digest of the lent plan; lent records that are zero, and lent records that are as they were. The module plans has
// the like for edit_cases.
#![tactic(auto)]

mod left;
mod plans;

ghost use Rattle.std.specs.Prelude.{◌≡◌, ◌≤◌, List, length, replicate};
ghost use Rattle.std.specs.Fn.{FnOnceReturnsAtMut};
ghost use Rattle.model.specs.Connect.{connect_of};
ghost use Rattle.moves.specs.Modes.{mode_of};
ghost use Rattle.table.specs.Records.{blank};
ghost use Rattle.table.specs.declared.Record.{Record};
ghost use Rattle.lent.specs.Counts.{count_of};
ghost use Rattle.lent.specs.Gives.{before, Gives};

use crate::left::{count_records, digest};
use std::io;
use std::io::Print;
use table::Record;

// What a call answered, how many of the lent records it left zero, and how many as they were.
#[derive(Clone, Copy)]
struct Outcome<A> {
    answer: A,
    zero: usize,
    same: usize,
}

// What a record holds before the call: no number of it is zero.
fn record_before() -> Record
    ensures { result ≡ before }
{
    Record {
        at: moves::Situation {
            buffer: moves::Buffer { counts: [1; 14] },
            old: 1,
            new: 1,
        },
        packed: 1,
        slot: 1,
        order: 1,
        mark: 1,
        number: 1,
        present: moves::Present {
            straight: 1,
            client: 1,
            service: 1,
        },
        last: [1; keys::KINDS],
        next: [1; keys::SLOTS],
        before: [1; keys::SLOTS],
    }
}

// An answer, with what is counted in the records behind it.
fn counted<A>(answer: A, work: &[Record]) -> Outcome<A>
    ensures { result
        ≡ record { answer = answer; zero = count_of 0 work.now; same = count_of 1 work.now } }
{
    Outcome {
        answer,
        zero: count_records(work, 0),
        same: count_records(work, 1),
    }
}

// Lends so many records to a call, of as many as the stored cases ask for, and counts what became of them.
fn lend_records<A, F: FnOnce(&mut [Record]) -> A>(count: usize, call: F) -> Outcome<A>
    requires few { count ≤ 5000 }
    requires callable { F.IsAlwaysCallable call }
    ensures { (work : List Record) × FnOnceReturnsAtMut F.FnOnce call (replicate count before) result.answer work
        × (result.zero ≡ count_of 0 work) × (result.same ≡ count_of 1 work) }
{
    let mut work = [record_before(); 5000];
    let lent = &mut work[..count];
    let answer = call(lent);
    counted(answer, lent)
}

// Connects two sheets with so many records lent. They are not lent by `lend_records`: no contract says what a closure leaves in a plan.
fn connect_lent(
    mode: moves::Mode,
    k: u8,
    old: &[u8],
    new: &[u8],
    count: usize,
    plan: &mut [u8],
) -> Outcome<connect::Answer>
    requires few { count ≤ 5000 }
    ensures { Gives
        (connect_of blank (mode_of mode) k old.now new.now (replicate count before) plan.old)
        result plan.new }
{
    let mut work = [record_before(); 5000];
    let lent = &mut work[..count];
    let answer = connect::connect_mode(mode, k, old, new, lent, plan);
    counted(answer, lent)
}

// Prints the line of a call that was lent a plan.
fn print_outcome(
    rt: &impl Print,
    outcome: Outcome<connect::Answer>,
    plan: &[u8],
) -> io::Result<()> {
    let Outcome { answer, zero, same } = outcome;
    print!(rt;
        "{} {} {} {} ",
        answer.number, answer.sheet, answer.state, answer.offset
    )?;
    print!(rt;
        "{} {} {} {} ",
        answer.situations, answer.states, answer.rounds, answer.length
    )?;
    println!(rt; "{} {zero} {same}", digest(plan))
}

// Prints the line of a case. Before the call every byte of the lent plan is EE hex.
pub fn answer(rt: &impl Print, case: &[u8]) -> io::Result<()> {
    if case.len() < 6 {
        return Ok(());
    }
    let count = little_endian::word_at(case, 0) as usize;
    if 5000 < count {
        return Ok(());
    }
    let room = little_endian::word_at(case, 2) as usize;
    let mode = moves::Mode::from(case[4]);
    let Some((old, new)) = framing::split_part(&case[6..]) else {
        return Ok(());
    };
    let mut plan = [0xEE; 65535];
    let plan = &mut plan[..room];
    let outcome = connect_lent(mode, case[5], old, new, count, plan);
    print_outcome(rt, outcome, plan)
}

// Prints the line of a case of a plan.
pub fn answer_plan(rt: &impl Print, case: &[u8]) -> io::Result<()> {
    plans::answer(rt, case)
}
