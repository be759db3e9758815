// The standstills of a run: the choices under which no code can be made.
ghost use Rattle.std.specs.Prelude.{◌≤◌};
ghost use Rattle.sheet.specs.Whole.{IsState};
ghost use Rattle.runs.specs.Runs.{InStates};

use crate::{Parties, Run, need_met};

// How many standstills there are, and how many of them lack the success mark.
#[derive(Clone, Copy)]
pub struct Standstills {
    pub all: u16,
    pub unmarked: u16,
}

// Whether no code of the plan state's row has its need met under a choice.
fn is_standstill(plan: &[u8], state: u16, R: u16, S: u16) -> bool {
    !(0..46).any(|code| plan::step(plan, state, code).is_ok() && need_met(R, S, code))
}

// How many ready sets of the service's state make a standstill with R.
fn count_with(parties: Parties, run: Run, R: u16) -> u16
    requires { IsState parties.service.now run.service }
    ensures { result ≤ 255 }
{
    let mut found = 0;
    for i in 0..sheet::ready_count(parties.service, run.service) {
        let S = sheet::ready_set(parties.service, run.service, i);
        if is_standstill(parties.plan, run.plan, R, S) {
            found += 1;
        }
    }
    found
}

// The standstills of a run.
pub fn count_standstills(parties: Parties, run: Run) -> Standstills
    requires { InStates parties run }
{
    let mut all = 0;
    let mut unmarked = 0;
    for i in 0..sheet::ready_count(parties.client, run.client) {
        let R = sheet::ready_set(parties.client, run.client, i);
        let stuck = count_with(parties, run, R);
        all += stuck;
        if !sheet::has_bit(R, 14) {
            unmarked += stuck;
        }
    }
    Standstills { all, unmarked }
}
