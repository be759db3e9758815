// The plan layout, tested on any bytes.
ghost use Rattle.std.specs.Prelude.{◌≡◌, ◌+◌, ◌*◌, ◌≤◌, ltb, length};
ghost use Rattle.model.specs.Contract.{name};
ghost use Rattle.model.specs.Situation.{kind_of};
ghost use Rattle.model.specs.Plan.{named_below, good_row, read_moves, read_rows, read_plan};
ghost use Rattle.plan.specs.Layout.{is_some, move_at, good_move, good_place, figures_in_range};

use little_endian::{dword_at, word_at};

// Moves of a row and states of a plan at most.
const MOVES: usize = 42;

const STATES: u16 = 4096;

// Whether the name of an action is below n.
pub fn named(j: u8, n: u8) -> bool
    ensures { result ≡ ltb (name j) n }
{
    if j < 7 { j < n } else { j - 7 < n }
}

// Whether a code is in one of the three ranges, with a name below n.
pub fn named_below(code: u8, n: u8) -> bool
    ensures { result ≡ named_below n (kind_of code) }
{
    match code {
        0..=13 => named(code, n),
        16..=29 => named(code - 16, n),
        32..=45 => named(code - 32, n),
        _ => false,
    }
}

// Whether the move at a place is one of a plan with count states over n names.
pub fn good_move(plan: &[u8], at: usize, n: u8, count: u16) -> bool
    requires { at + 3 ≤ length plan.now }
    ensures { result ≡ good_move n count (move_at plan.now at) }
{
    named_below(plan[at], n) && word_at(plan, at + 1) < count
}

// Whether the size moves from first on are a row of such a plan.
pub fn good_row(plan: &[u8], first: usize, size: usize, n: u8, count: u16) -> bool
    requires { first + 3 * size ≤ length plan.now }
    ensures { result ≡ good_row n count (read_moves plan.now first size) }
{
    if MOVES < size {
        return false;
    }
    let mut low = 0;
    for i in 0..size {
        let at = first + 3 * i;
        let code = plan[at] as usize;
        if code < low {
            return false;
        }
        if !good_move(plan, at, n, count) {
            return false;
        }
        low = code + 1;
    }
    true
}

// Whether row p stands at the place i where the index says, ends before the index, and is a row of such a plan.
pub fn good_place(plan: &[u8], index: usize, count: u16, n: u8, p: usize, i: usize) -> bool
    requires { index + 4 * p + 4 ≤ length plan.now }
    ensures { result ≡ good_place plan.now index count n p i }
{
    if dword_at(plan, index + 4 * p) as usize != i {
        return false;
    }
    if index <= i {
        return false;
    }
    let size = plan[i] as usize;
    if index - i <= 3 * size {
        return false;
    }
    good_row(plan, i + 1, size, n, count)
}

// Whether count rows stand from the first byte on, each where the index says and directly behind the one before, up
// to the index.
pub fn good_rows(plan: &[u8], index: usize, count: u16, n: u8) -> bool
    requires { index + 4 * count ≤ length plan.now }
    ensures { result ≡ is_some (read_rows plan.now index count n count 0 0) }
{
    let mut i = 0;
    for p in 0..count as usize {
        if !good_place(plan, index, count, n, p, i) {
            return false;
        }
        i = i + 1 + 3 * (plan[i] as usize);
    }
    i == index
}

// Whether a plan can have count states, n names and the rank k.
pub fn figures_in_range(count: u16, n: u8, k: u8) -> bool
    ensures { result ≡ figures_in_range count n k }
{
    1 <= count && count <= STATES && n <= 7 && k <= 3
}

// Whether bytes have the plan layout.
pub fn is_plan(plan: &[u8]) -> bool
    ensures { result ≡ is_some (read_plan plan.now) }
{
    let end = plan.len();
    if end < 8 {
        return false;
    }
    let index = dword_at(plan, end - 8) as usize;
    let count = word_at(plan, end - 4);
    let n = plan[end - 2];
    if !figures_in_range(count, n, plan[end - 1]) {
        return false;
    }
    index + 4 * (count as usize) + 8 == end && good_rows(plan, index, count, n)
}
