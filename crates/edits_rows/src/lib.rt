// A row of a plan in a situation: which condition of the check it breaks first, told the mode, and by which code or ready set.
#![tactic(auto)]

ghost use Rattle.std.specs.Prelude.{◌≡◌, ℕ, Bool, ◌+◌, ◌*◌, ◌^◌, ◌≤◌, ◌<◌, length, get_or};
ghost use mathlib.Core.List.{Memᴰ};
ghost use Rattle.std.proofs.Math.Option.{none};
ghost use Rattle.model.specs.Contract.{state};
ghost use Rattle.model.specs.Sheet.{contract_in};
ghost use Rattle.model.specs.Situation.{alike, kind_of, codes};
ghost use Rattle.model.specs.Test.{asked, delivered};
ghost use Rattle.model.specs.Plan.{read_moves};
ghost use Rattle.sheet.specs.Whole.{IsState};
ghost use Rattle.moves.specs.Present.{codes_of};
ghost use Rattle.moves.specs.Modes.{mode_of};
ghost use Rattle.moves.specs.Situations.{situation_of, Placed};
ghost use Rattle.edits.specs.Places.{codes_in};
ghost use Rattle.edits.specs.Sound.{first_not, blamed, blame_of};
ghost use Rattle.edits_rows.specs.Rows.{InRow, met_by, blame_from, blame_by, judged, found_of, Tells, WithCode, Judgeable};

// Which condition a row breaks first, and by what: a move of the row that does not keep the buffer within its limits; one that the new
// state can meet and the old one cannot; a ready set of the new state that is not answered; one that has not what the second part of the
// test asks.
#[derive(Clone, Copy, Debug, PartialEq, Eq)]
pub enum Breach {
    Outside(u8),
    Unmet(u8),
    Unanswered(u16),
    Undelivered(u16),
}

// A breach for C: which condition fails, counted from 1, and 0 if none does; the code of the move that breaks one of the first two; the
// ready set that breaks one of the others.
#[repr(C)]
#[derive(Clone, Copy)]
pub struct Blame {
    pub condition: u8,
    pub code: u8,
    pub ready: u16,
}

// Nothing is at fault.
pub fn nothing() -> Blame
    ensures { result ≡ blame_from (blamed none none none none) }
{
    Blame {
        condition: 0,
        code: 0,
        ready: 0,
    }
}

impl From<Breach> for Blame {
    ghost from_gives = { λ breach blame. blame ≡ blame_from (blame_by breach) };

    fn from(breach: Breach) -> Blame {
        let (condition, code, ready) = match breach {
            Breach::Outside(code) => (1, code, 0),
            Breach::Unmet(code) => (2, code, 0),
            Breach::Unanswered(set) => (3, 0, set),
            Breach::Undelivered(set) => (4, 0, set),
        };
        Blame {
            condition,
            code,
            ready,
        }
    }
}

// The code of the i-th move of a row.
fn code_at(plan: &[u8], row: plan::Row, i: usize) -> u8
    requires { (row.first + 3 * row.size ≤ length plan.now) × (i < row.size) }
    ensures { result ≡ get_or (codes_in (read_moves plan.now row.first row.size)) i 0 }
{
    plan[row.first + 3 * i]
}

// The first code of a row that fails a test.
fn first_code_not<F: Fn(u8) -> bool>(plan: &[u8], row: plan::Row, test: F) -> Option<u8>
    requires row { row.first + 3 * row.size ≤ length plan.now }
    requires callable { F.IsAlwaysCallable test }
    ensures { (passes : ℕ → Bool) → Tells (F.post test) passes
        → result ≡ found_of (first_not passes (codes_in (read_moves plan.now row.first row.size))) }
{
    for i in 0..row.size {
        let code = code_at(plan, row, i);
        if !test(code) {
            return Some(code);
        }
    }
    None
}

// The first ready set of state q that fails a test.
fn first_ready_not<F: Fn(u16) -> bool>(b: &[u8], q: u8, test: F) -> Option<u16>
    requires state { IsState b.now q }
    requires callable { F.IsAlwaysCallable test }
    ensures { (passes : ℕ → Bool) → Tells (F.post test) passes
        → result ≡ found_of (first_not passes (state (contract_in b.now) q).ready) }
{
    for i in 0..sheet::ready_count(b, q) {
        let set = sheet::ready_set(b, q, i);
        if !test(set) {
            return Some(set);
        }
    }
    None
}

// Whether the old state can meet the move with a code if the new one can, by the actions that they offer.
fn met(code: u8, old: u16, new: u16) -> bool
    ensures { result ≡ met_by old new (kind_of code) }
{
    match code {
        0..=13 => {
            if sheet::has_bit(new, code) {
                return sheet::has_bit(old, code);
            }
            true
        }
        16..=29 => sheet::has_bit(old, code - 16),
        _ => true,
    }
}

// The bit of an action.
fn bit(j: u8) -> u16
    requires { j ≤ 13 }
    ensures { result ≡ 2 ^ j }
{
    1 << j
}

// The moves with one more.
fn with_code(present: moves::Present, code: u8) -> moves::Present
    requires { Memᴰ «code» codes }
    ensures { WithCode present code result }
{
    let mut all = present;
    if code < 14 {
        all.straight = present.straight | bit(code);
        return all;
    }
    if code < 30 {
        all.client = present.client | bit(code - 16);
        return all;
    }
    all.service = present.service | bit(code - 32);
    all
}

// The moves of a row as masks.
fn present_in(plan: &[u8], row: plan::Row) -> moves::Present
    requires { InRow plan.now row }
    ensures { codes_of result ≡ codes_in (read_moves plan.now row.first row.size) }
{
    let mut present = moves::Present {
        straight: 0,
        client: 0,
        service: 0,
    };
    for i in 0..row.size {
        present = with_code(present, code_at(plan, row, i));
    }
    present
}

// The first ready set of the new state that has not what the second part of the test asks, if that is asked in the situation.
fn undelivered(
    mode: moves::Mode,
    old: &[u8],
    new: &[u8],
    at: moves::Situation,
    present: moves::Present,
) -> Option<u16>
    requires { Placed old.now new.now at }
    ensures { result ≡ found_of (first_not
        (delivered (asked (mode_of mode) (state (contract_in old.now) at.old) at.buffer.counts) (codes_of present))
        (state (contract_in new.now) at.new).ready) }
{
    if !moves::due(mode, old, at) {
        return None;
    }
    first_ready_not(new, at.new, |set| present.hope(set))
}

// Whether a row holds in a situation whose states offer so much, or what it breaks first.
pub fn judge(
    mode: moves::Mode,
    old: &[u8],
    new: &[u8],
    plan: &[u8],
    row: plan::Row,
    k: u8,
    at: moves::Situation,
    old_offer: sheet::Offer,
    new_offer: sheet::Offer,
) -> Result<(), Breach>
    requires { Judgeable old.now new.now plan.now row at old_offer new_offer }
    ensures { judged result ≡ blame_of (mode_of mode) (alike k) (contract_in old.now) (contract_in new.now)
        (situation_of at) (codes_in (read_moves plan.now row.first row.size)) }
{
    if let Some(code) = first_code_not(plan, row, |code| at.buffer.after(code, k).is_some()) {
        return Err(Breach::Outside(code));
    }
    if let Some(code) = first_code_not(
        plan,
        row,
        |code| met(code, old_offer.actions, new_offer.actions),
    ) {
        return Err(Breach::Unmet(code));
    }
    let present = present_in(plan, row);
    if let Some(set) = first_ready_not(
        new,
        at.new,
        |set| moves::answers(old, at.old, present, set),
    ) {
        return Err(Breach::Unanswered(set));
    }
    if let Some(set) = undelivered(mode, old, new, at, present) {
        return Err(Breach::Undelivered(set));
    }
    Ok(())
}
