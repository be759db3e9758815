// The entry points for C and Rust: each hands its arguments on and its answer back. A slice passes as a pointer and then a length.
#![tactic(auto)]

ghost use Rattle.std.specs.Prelude.{◌≡◌};
ghost use Rattle.model.specs.Test.{paper};
ghost use Rattle.model.specs.Connect.{connect_of};
ghost use Rattle.model.specs.Plan.{step_of};
ghost use Rattle.model.specs.Client.{complies_of};
ghost use Rattle.plan.specs.Step.{stepped_of};
ghost use Rattle.comply.specs.Answer.{compliance_of};
ghost use Rattle.moves.specs.Modes.{mode_numbered};
ghost use Rattle.table.specs.Records.{blank};
ghost use Rattle.connect.specs.Answers.{answer_of};
ghost use Rattle.edits.specs.Check.{check_plan_of, plan_fault_of};
ghost use Rattle.edits_walk.specs.Faults.{fault_by};
ghost use Rattle.choosing.specs.Convert.{convert_into};
ghost use Rattle.nodes.specs.Answer.{written_by};
ghost use Rattle.text.specs.Convert.{text_into, text_fault_of};
ghost use Rattle.named_row.specs.Row.{row_part_of, row_refusal_of};
ghost use Rattle.named_row.specs.Answers.{part_of, refusal_of};

use comply::Compliance;
use plan::Stepped;

// `connect::connect`.
#[unsafe(no_mangle)]
pub extern "C" fn adapter_connect(
    k: u8,
    old: &[u8],
    new: &[u8],
    work: &mut [table::Record],
    plan: &mut [u8],
) -> connect::Answer
    ensures outcome { record { answer = answer_of result; plan = plan.new; work = work.new }
        ≡ connect_of blank paper k old.now new.now work.old plan.old }
{
    connect::connect(k, old, new, work, plan)
}

// `connect::connect_mode`, in the mode that a number names.
#[unsafe(no_mangle)]
pub extern "C" fn adapter_connect_mode(
    mode: u8,
    k: u8,
    old: &[u8],
    new: &[u8],
    work: &mut [table::Record],
    plan: &mut [u8],
) -> connect::Answer
    ensures outcome { record { answer = answer_of result; plan = plan.new; work = work.new }
        ≡ connect_of blank (mode_numbered mode) k old.now new.now work.old plan.old }
{
    connect::connect_mode(moves::Mode::from(mode), k, old, new, work, plan)
}

// `plan::step`, told by numbers.
#[unsafe(no_mangle)]
pub extern "C" fn adapter_step(plan: &[u8], state: u16, code: u8) -> Stepped
    ensures { result ≡ stepped_of (step_of plan.now state code) }
{
    Stepped::from(plan::step(plan, state, code))
}

// `comply::complies`, told by numbers.
#[unsafe(no_mangle)]
pub extern "C" fn adapter_complies(client: &[u8], service: &[u8]) -> Compliance
    ensures { result ≡ compliance_of (complies_of client.now service.now) }
{
    Compliance::from(comply::complies(client, service))
}

// `check_plan::check_plan`, in the mode that a number names.
#[unsafe(no_mangle)]
pub extern "C" fn adapter_check_plan(
    mode: u8,
    old: &[u8],
    new: &[u8],
    plan: &[u8],
    work: &mut [table::Record],
) -> connect::Answer
    ensures outcome { record { answer = answer_of result; work = work.new }
        ≡ check_plan_of blank (mode_numbered mode) old.now new.now plan.now work.old }
{
    check_plan::check_plan(moves::Mode::from(mode), old, new, plan, work)
}

// `check_plan::plan_fault`, in the same mode.
#[unsafe(no_mangle)]
pub extern "C" fn adapter_plan_fault(
    mode: u8,
    old: &[u8],
    new: &[u8],
    plan: &[u8],
    work: &mut [table::Record],
) -> edits_walk::Fault
    ensures outcome { record { fault = fault_by result; work = work.new }
        ≡ plan_fault_of blank (mode_numbered mode) old.now new.now plan.now work.old }
{
    check_plan::plan_fault(moves::Mode::from(mode), old, new, plan, work)
}

// `convert::convert`.
#[unsafe(no_mangle)]
pub extern "C" fn adapter_from_choosing(choosing: &[u8], sheet: &mut [u8]) -> nodes::SheetAnswer
    ensures outcome { written_by result sheet.new ≡ convert_into choosing.now sheet.old }
{
    convert::convert(choosing, sheet)
}

// `text_sheet::from_text`.
#[unsafe(no_mangle)]
pub extern "C" fn adapter_from_text(text: &[u8], sheet: &mut [u8]) -> nodes::SheetAnswer
    ensures outcome { written_by result sheet.new ≡ text_into text.now sheet.old }
{
    text_sheet::from_text(text, sheet)
}

// `text_sheet::text_fault`.
#[unsafe(no_mangle)]
pub extern "C" fn adapter_text_fault(text: &[u8]) -> u16
    ensures { result ≡ text_fault_of text.now }
{
    text_sheet::text_fault(text)
}

// `named_row::row_part`: the part that `named_row::row_bytes` hands back, told by numbers, as no exported function can return a reference.
#[unsafe(no_mangle)]
pub extern "C" fn adapter_row(first: &[u8], second: &[u8], sheet: u8, state: u8) -> named_row::Part
    ensures { result ≡ part_of (row_part_of first.now second.now sheet state) }
{
    named_row::row_part(first, second, sheet, state)
}

// `named_row::row_refusal`.
#[unsafe(no_mangle)]
pub extern "C" fn adapter_row_refusal(
    first: &[u8],
    second: &[u8],
    sheet: u8,
    state: u8,
) -> named_row::RowRefusal
    ensures { result ≡ refusal_of (row_refusal_of first.now second.now sheet state) }
{
    named_row::row_refusal(first, second, sheet, state)
}
