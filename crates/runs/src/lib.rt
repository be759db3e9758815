// Runs of plans, for the test program run_cases. A case is a client sheet, a service sheet and a plan, each behind its length, and attempts
// of five bytes: R and S (16 bits each) and a code. Its lines: for each attempt 1 for a move or 0, and number and next state of stepping;
// then the state after the list.
#![tactic(auto)]

mod standstills;

ghost use Rattle.std.specs.Prelude.{◌≡◌, [], length, IfOk};
ghost use Rattle.model.specs.Contract.{state};
ghost use Rattle.model.specs.Sheet.{contract_in};
ghost use Rattle.model.specs.Situation.{kind_of};
ghost use Rattle.model.specs.Test.{listed};
ghost use Rattle.model.specs.Plan.{rows_in};
ghost use Rattle.model.specs.Run.{need, choice, moved, attempted, run_from};
ghost use Rattle.sheet.specs.Whole.{IsState};
ghost use Rattle.runs.specs.Runs.{client_of, service_of, run_of, InStates, MoveReady, attempt_of, attempts_in};

use crate::standstills::{Standstills, count_standstills};
use std::io;
use std::io::Print;

// What a run is over: a client sheet, a service sheet and a plan.
#[derive(Clone, Copy)]
struct Parties<'a> {
    client: &'a [u8],
    service: &'a [u8],
    plan: &'a [u8],
}

// The three states of a run, how many service-alone moves came right before, and the most that came in a row.
#[derive(Clone, Copy)]
pub struct Run {
    pub client: u8,
    pub service: u8,
    pub plan: u16,
    pub alone: u16,
    pub longest: u16,
}

// Whether the masks have what a code needs.
fn need_met(R: u16, S: u16, code: u8) -> bool
    ensures { result ≡ need R S (kind_of code) }
{
    match code {
        0..=13 => sheet::has_bit(S, code) && sheet::has_bit(R, sheet::partner(code)),
        16..=29 => sheet::has_bit(R, sheet::partner(code - 16)),
        32..=45 => sheet::has_bit(S, code - 32),
        _ => false,
    }
}

// Whether a mask is a ready set of state q.
fn is_ready(b: &[u8], q: u8, mask: u16) -> bool
    requires { IsState b.now q }
    ensures { result ≡ listed (state (contract_in b.now) q).ready mask }
{
    sheet::any_ready(b, q, |set| set == mask)
}

// The run after a move with a code, by which the plan goes to a state. A party that goes on offers the action.
fn moved(parties: Parties, run: Run, code: u8, to: u16) -> Run
    requires { MoveReady parties.client.now parties.service.now run (kind_of code) }
    ensures { (run_of result
        ≡ moved (client_of parties.entry) (service_of parties.entry) [] (run_of run) (kind_of code) to)
        × InStates parties.entry result }
{
    let Parties {
        client,
        service,
        ..
    } = parties;
    match code {
        0..=13 => Run {
            client: sheet::successor(client, run.client, sheet::partner(code)),
            service: sheet::successor(service, run.service, code),
            plan: to,
            alone: 0,
            ..run
        },
        16..=29 => Run {
            client: sheet::successor(client, run.client, sheet::partner(code - 16)),
            plan: to,
            alone: 0,
            ..run
        },
        32..=45 => {
            let alone = run.alone.saturating_add(1);
            Run {
                service: sheet::successor(service, run.service, code - 32),
                plan: to,
                alone,
                longest: run.longest.max(alone),
                ..run
            }
        }
        _ => run,
    }
}

// Whether R and S are a choice: ready sets of the present client and service states.
fn is_choice(parties: Parties, run: Run, R: u16, S: u16) -> bool
    requires { InStates parties run }
    ensures { result ≡ choice (client_of parties.entry) (service_of parties.entry) [] (run_of run) R S }
{
    is_ready(parties.client, run.client, R) && is_ready(parties.service, run.service, S)
}

// The run after an attempt of five bytes, whose line is printed.
fn attempted(rt: &impl Print, parties: Parties, run: Run, attempt: &[u8]) -> io::Result<Run>
    requires at { InStates parties run }
    requires five { length attempt.now ≡ 5 }
    ensures { IfOk result (λ after. (run_of after
        ≡ attempted (client_of parties.entry) (service_of parties.entry) (rows_in parties.entry.plan.now) (run_of run)
        (attempt_of attempt.now))
        × InStates parties.entry after) }
{
    let R = little_endian::word_at(attempt, 0);
    let S = little_endian::word_at(attempt, 2);
    let code = attempt[4];
    let step = plan::step(parties.plan, run.plan, code);
    if let Ok(to) = step {
        if is_choice(parties, run, R, S) && need_met(R, S, code) {
            println!(rt; "1 0 {to}")?;
            return Ok(moved(parties, run, code, to));
        }
    }
    let told = plan::Stepped::from(step);
    println!(rt; "0 {} {}", told.number, told.state)?;
    Ok(run)
}

// The run after a list of attempts, whose lines are printed.
fn followed(rt: &impl Print, parties: Parties, attempts: &[u8], start: Run) -> io::Result<Run>
    requires { InStates parties start }
    ensures { IfOk result (λ after. (run_of after
        ≡ run_from (client_of parties.entry) (service_of parties.entry) (rows_in parties.entry.plan.now) (run_of start)
        (attempts_in attempts.now))
        × InStates parties.entry after) }
{
    let mut run = start;
    for attempt in attempts.chunks_exact(5) {
        run = attempted(rt, parties, run, attempt)?;
    }
    Ok(run)
}

// Prints the lines of a run from the start on.
fn follow_sheets(rt: &impl Print, parties: Parties, attempts: &[u8]) -> io::Result<()>
    requires { IsState parties.client.now 0 × IsState parties.service.now 0 }
{
    let start = Run {
        client: 0,
        service: 0,
        plan: 0,
        alone: 0,
        longest: 0,
    };
    let run = followed(rt, parties, attempts, start)?;
    let Standstills { all, unmarked } = count_standstills(parties, run);
    print!(rt; "{} {} {} ", run.client, run.service, run.plan)?;
    println!(rt; "{all} {unmarked} {}", run.longest)
}

// The same for any bytes; nothing is printed where they are no client sheet and service sheet.
fn follow(rt: &impl Print, parties: Parties, attempts: &[u8]) -> io::Result<()> {
    match pair::check_pair(1, 0, parties.client, parties.service) {
        Err(_) => Ok(()),
        Ok(()) => follow_sheets(rt, parties, attempts),
    }
}

// Prints the lines of a case.
pub fn answer(rt: &impl Print, case: &[u8]) -> io::Result<()> {
    let Some((client, rest)) = framing::split_part(case) else {
        return Ok(());
    };
    let Some((service, rest)) = framing::split_part(rest) else {
        return Ok(());
    };
    let Some((plan, attempts)) = framing::split_part(rest) else {
        return Ok(());
    };
    let parties = Parties {
        client,
        service,
        plan,
    };
    follow(rt, parties, attempts)
}
