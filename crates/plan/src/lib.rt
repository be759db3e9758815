// Plans as bytes. Document 01, "Which pairs connect" and "The client check and the run".
#![tactic(auto)]

pub mod read;
pub mod write;

ghost use Rattle.std.specs.Prelude.{◌≡◌, true, ◌+◌, ◌*◌, ◌≤◌, ◌<◌, length};
ghost use Rattle.std.proofs.Math.Option.{some};
ghost use Rattle.model.specs.Plan.{read_plan, rows_in, step_of};
ghost use Rattle.plan.specs.Layout.{is_some};
ghost use Rattle.plan.specs.Rows.{RowOf};
ghost use Rattle.plan.specs.Step.{held_in, told, stepped_of};

use little_endian::{dword_at, word_at};

// Why a step is refused: the bytes are no plan, the number is no state of the plan, or the state's row does not hold the code.
#[derive(Clone, Copy, Debug, PartialEq, Eq)]
pub enum Refusal {
    NoPlan = 14,
    NoState = 15,
    NoMove = 16,
}

// The answer of a step for C: number 0 and the next state, or a refusal's number and 0.
#[repr(C)]
#[derive(Clone, Copy)]
pub struct Stepped {
    pub number: u8,
    pub state: u16,
}

impl From<Result<u16, Refusal>> for Stepped {
    ghost from_gives = { λ step s. s ≡ stepped_of (told step) };

    fn from(step: Result<u16, Refusal>) -> Stepped {
        match step {
            Ok(state) => Stepped { number: 0, state },
            Err(why) => Stepped {
                number: why as u8,
                state: 0,
            },
        }
    }
}

// The next state of a code in a row whose moves, size of them, stand from first on; none if the row does not hold the code.
fn step_row(plan: &[u8], first: usize, size: usize, code: u8) -> Option<u16>
    requires { first + 3 * size ≤ length plan.now }
    ensures { result ≡ held_in plan.now first size code }
{
    for i in 0..size {
        let at = first + 3 * i;
        if plan[at] == code {
            return Some(word_at(plan, at + 1));
        }
    }
    None
}

// Where the moves of a row stand: the first of them, and how many there are.
#[derive(Clone, Copy)]
pub struct Row {
    pub first: usize,
    pub size: usize,
}

// The row of a state of a plan.
pub fn row_of(plan: &[u8], state: u16) -> Row
    requires { state < length (rows_in plan.now) }
    ensures { RowOf plan.now state result }
{
    let index = dword_at(plan, plan.len() - 8) as usize;
    let row = dword_at(plan, index + 4 * (state as usize)) as usize;
    Row {
        first: row + 1,
        size: plan[row] as usize,
    }
}

// The names and the rank that a plan is over.
#[derive(Clone, Copy)]
pub struct Figures {
    pub n: u8,
    pub k: u8,
}

// Those of a plan.
pub fn figures_of(plan: &[u8]) -> Figures
    requires { is_some (read_plan plan.now) ≡ true }
    ensures { read_plan plan.now ≡ some (record { n = result.n; k = result.k; rows = rows_in plan.now }) }
{
    let end = plan.len();
    Figures {
        n: plan[end - 2],
        k: plan[end - 1],
    }
}

// The step by a code from a state of a plan: the next state, or why there is none.
pub fn step(plan: &[u8], state: u16, code: u8) -> Result<u16, Refusal>
    ensures { told result ≡ step_of plan.now state code }
{
    if !read::is_plan(plan) {
        return Err(Refusal::NoPlan);
    }
    if word_at(plan, plan.len() - 4) <= state {
        return Err(Refusal::NoState);
    }
    let row = row_of(plan, state);
    step_row(plan, row.first, row.size, code).ok_or(Refusal::NoMove)
}
