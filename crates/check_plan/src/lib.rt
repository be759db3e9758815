// Checking a plan from any hand against two sheets, in a mode: the answer, what is at fault, and the work table afterwards. Document 02,
// requests 3/13 and 5/13.
#![tactic(auto)]

ghost use Rattle.std.specs.Prelude.{◌≡◌};
ghost use Rattle.moves.specs.Modes.{mode_of};
ghost use Rattle.table.specs.Records.{blank};
ghost use Rattle.connect.specs.Answers.{answer_of};
ghost use Rattle.edits.specs.Check.{check_plan_of, plan_fault_of};
ghost use Rattle.edits_walk.specs.Faults.{fault_by};
ghost use Rattle.check_plan.specs.declared.Refusal.TheVariants.{Pair};
ghost use Rattle.check_plan.specs.Answers.{answer_for, answer_in, fault_in, AdmittedPlan, AdmitsPlan, WalksPlan};

use edits_walk::{Fault, Unsound};
use reached::Full;

// Why a plan does not hold: the two sheets cannot be used together; it is no plan; it is over other names; its rows reach more pairs than
// there are records, or than 4,096; a pair is unsound.
#[derive(Clone, Copy)]
enum Refusal {
    Pair(pair::Refusal),
    NoPlan,
    Names,
    Capacity,
    Unsound(Unsound),
}

impl From<pair::Refusal> for Refusal {
    ghost from_gives = { λ refusal why. why ≡ Pair refusal };

    fn from(refusal: pair::Refusal) -> Refusal {
        Refusal::Pair(refusal)
    }
}

impl From<Refusal> for connect::Answer {
    ghost from_gives = { λ why answer. answer_of answer ≡ answer_for why };

    fn from(why: Refusal) -> connect::Answer {
        match why {
            Refusal::Pair(pair) => connect::refusal(
                pair.number(),
                pair.sheet(),
                pair.state(),
                pair.offset(),
            ),
            Refusal::NoPlan => connect::refusal(14, 0, 0, 0),
            Refusal::Names => connect::refusal(9, 0, 0, 0),
            Refusal::Capacity => connect::refusal(11, 0, 0, 0),
            Refusal::Unsound(_) => connect::refusal(21, 0, 0, 0),
        }
    }
}

// Whether the pairs of a plan can be walked: two sheets that can be used together, and a plan over their names.
fn admitted(old: &[u8], new: &[u8], plan: &[u8]) -> Result<(), Refusal>
    ensures admits { AdmitsPlan old.now new.now plan.now result }
{
    pair::check_pair(0, 0, old, new)?;
    if !plan::read::is_plan(plan) {
        return Err(Refusal::NoPlan);
    }
    if plan::figures_of(plan).n != sheet::name_count(old) {
        return Err(Refusal::Names);
    }
    Ok(())
}

// The walk of the pairs that the rows of an admitted plan reach, after which each record is zero.
fn walk_admitted(
    mode: moves::Mode,
    old: &[u8],
    new: &[u8],
    plan: &[u8],
    work: &mut [table::Record],
) -> Result<Option<Unsound>, Full>
    requires admitted { AdmittedPlan old.now new.now plan.now }
    ensures walks { WalksPlan mode old.now new.now plan.now result work.old work.new }
{
    let k = plan::figures_of(plan).k;
    let limit = connect::limit_of(work.len());
    let walk = edits_walk::walk_pairs(mode, old, new, plan, k, limit, work);
    table::clear(work);
    walk
}

// Whether a plan still holds for two service sheets in a mode, or the first refusal of 1 to 9, 14, 9 again, 11 and 21.
fn checked(
    mode: moves::Mode,
    old: &[u8],
    new: &[u8],
    plan: &[u8],
    work: &mut [table::Record],
) -> Result<(), Refusal>
    ensures told { record { answer = answer_in result; work = work.new }
        ≡ check_plan_of blank (mode_of mode) old.now new.now plan.now work.old }
    ensures blamed { record { fault = fault_in result; work = work.new }
        ≡ plan_fault_of blank (mode_of mode) old.now new.now plan.now work.old }
{
    admitted(old, new, plan)?;
    match walk_admitted(mode, old, new, plan, work) {
        Ok(None) => Ok(()),
        Ok(Some(unsound)) => Err(Refusal::Unsound(unsound)),
        Err(Full) => Err(Refusal::Capacity),
    }
}

// Whether a plan still holds for two service sheets in a mode: number 0, or the first refusal of 1 to 9, 14, 9 again, 11 and 21.
pub fn check_plan(
    mode: moves::Mode,
    old: &[u8],
    new: &[u8],
    plan: &[u8],
    work: &mut [table::Record],
) -> connect::Answer
    ensures outcome { record { answer = answer_of result; work = work.new }
        ≡ check_plan_of blank (mode_of mode) old.now new.now plan.now work.old }
{
    match checked(mode, old, new, plan, work) {
        Ok(()) => connect::refusal(0, 0, 0, 0),
        Err(why) => why.into(),
    }
}

// What is at fault where the same check answers 21; all zero for every other answer.
pub fn plan_fault(
    mode: moves::Mode,
    old: &[u8],
    new: &[u8],
    plan: &[u8],
    work: &mut [table::Record],
) -> Fault
    ensures outcome { record { fault = fault_by result; work = work.new }
        ≡ plan_fault_of blank (mode_of mode) old.now new.now plan.now work.old }
{
    match checked(mode, old, new, plan, work) {
        Err(Refusal::Unsound(unsound)) => unsound.into(),
        _ => edits_walk::no_fault(),
    }
}
