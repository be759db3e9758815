// The parts of a sheet, each checked: trailer, masks, successors, rows, all states. Document 01, "Contracts as sheets" and
// "Refusals and their order".
ghost use Rattle.std.specs.Prelude.{◌≡◌, true, [], ◌∷◌, ◌+◌, ◌*◌, ◌≤◌, length};
ghost use Rattle.model.specs.Lists.{place};
ghost use Rattle.model.specs.Sheet.{trailer, good_trailer, stray_bit, out_of_order, words_from, masks_from};
ghost use Rattle.model.specs.Sheet.{successors_from, row_with, row_at, states_from};
ghost use Rattle.sheet.specs.Union.{union_of};
ghost use Rattle.sheet.specs.Answers.{trailer_of, trailer_within, fault_of, reading_of, on_result, whole, behind_of, found};

use super::{ACTION_BITS, Fault, ones_below};
use little_endian::word_at;

// The last 6 bytes of a sheet.
#[derive(Clone, Copy)]
pub struct Trailer {
    pub index: u16,
    pub count: u8,
    pub n: u8,
    pub role: u8,
    pub closing: u8,
}

// The trailer of bytes long enough to have one.
pub fn read_trailer(b: &[u8]) -> Trailer
    requires { 6 ≤ length b.now }
    ensures { trailer_of result ≡ trailer b.now }
{
    let end = b.len();
    Trailer {
        index: word_at(b, end - 6),
        count: b[end - 4],
        n: b[end - 3],
        role: b[end - 2],
        closing: b[end - 1],
    }
}

// Whether each number of a trailer is in its range: 1 to so many states, n 0 to 7, a role up to the highest, and its closing byte.
pub fn trailer_within(t: Trailer, states: u8, role: u8, closing: u8) -> bool
    ensures { result ≡ trailer_within (trailer_of t) states role closing }
{
    1 <= t.count && t.count <= states && t.n <= 7 && t.role <= role && t.closing == closing
}

// The same for sheets: up to 64 states, role 0 or 1, closing byte C5.
pub fn good_trailer(t: Trailer) -> bool
    ensures { result ≡ good_trailer (trailer_of t) }
{
    trailer_within(t, 64, 1, 0xC5)
}

// Whether a mask has a bit that a sheet over n names in this role may not have. Bits 0 to 6 are names taken, 7 to 13
// names sent, 14 and 15 the marks.
pub fn stray_bit(n: u8, role: u8, mask: u16) -> bool
    requires { (n ≤ 7) × (role ≤ 1) }
    ensures { result ≡ stray_bit n role mask }
{
    let limit: u16 = 1 << n;
    limit <= mask % 128 || limit <= mask / 128 % 128 || u16::from(role) < mask / ACTION_BITS
}

// The first of `count` masks from an offset on that has a stray bit, counted from 0.
fn first_stray(b: &[u8], t: Trailer, count: usize, at: usize) -> Option<usize>
    requires { (t.n ≤ 7) × (t.role ≤ 1) × (at + 2 * count ≤ length b.now) × (length b.now ≤ 2118) }
    ensures { result ≡ found count (place (stray_bit t.n t.role) (words_from b.now count at)) }
{
    for i in 0..count {
        if stray_bit(t.n, t.role, word_at(b, at + 2 * i)) {
            return Some(i);
        }
    }
    None
}

// The `count` masks of state q from an offset on: none with a stray bit, and then strictly ascending. Some mask has a stray
// bit exactly if their union has one. What is handed on is the union. A flag and a count, where an Option of the first place out of order
// would be plainer: with it, reading a full sheet took a fifth to a half more time.
pub fn check_masks(b: &[u8], t: Trailer, q: u8, count: usize, at: usize) -> Result<u16, Fault>
    requires { (t.n ≤ 7) × (t.role ≤ 1) × (at + 2 * count ≤ length b.now) × (length b.now ≤ 2118) }
    ensures { reading_of fault_of result ≡ on_result union_of (masks_from b.now (trailer_of t) q count 0 at) }
{
    let mut union: u16 = 0;
    let mut rising = true;
    let mut low: usize = 0;
    let mut least: u32 = 0;
    for i in 0..count {
        let mask = word_at(b, at + 2 * i);
        union |= mask;
        rising = rising & (least <= u32::from(mask));
        low += usize::from(rising);
        least = u32::from(mask) + 1;
    }
    if stray_bit(t.n, t.role, union) {
        let stray = first_stray(b, t, count, at).unwrap();
        return Err(Fault::Action {
            state: q,
            offset: (at + 2 * stray) as u16,
        });
    }
    if rising {
        return Ok(union);
    }
    Err(Fault::Ready {
        state: q,
        offset: (at + 2 * low) as u16,
    })
}

// The `count` successors of state q from an offset on: each a state of the sheet.
pub fn check_successors(b: &[u8], t: Trailer, q: u8, count: usize, at: usize) -> Result<(), Fault>
    requires { (at + count ≤ length b.now) × (length b.now ≤ 2118) }
    ensures { reading_of fault_of result ≡ whole (successors_from b.now (trailer_of t) q count at) }
{
    for i in at..at + count {
        if t.count <= b[i] {
            return Err(Fault::Successor {
                state: q,
                offset: i as u16,
            });
        }
    }
    Ok(())
}

// What follows the masks of state q: a successor for each offered action. The masks count only by their union. What is
// handed on is where the next row begins.
pub fn check_behind(b: &[u8], t: Trailer, q: u8, at: usize, union: u16) -> Result<usize, Fault>
    requires { (at ≤ t.index) × (t.index ≤ length b.now) × (length b.now ≤ 2118) }
    ensures { reading_of fault_of result ≡ on_result behind_of (row_with b.now (trailer_of t) q at (union ∷ [])) }
{
    let offered = ones_below(union, 14);
    if (t.index as usize) < at + offered {
        return Err(Fault::Row {
            state: q,
            offset: t.index,
        });
    }
    check_successors(b, t, q, offered, at)?;
    Ok(at + offered)
}

// The row of state q at an offset. What is handed on is where the next one begins.
pub fn check_row(b: &[u8], t: Trailer, q: u8, at: usize) -> Result<usize, Fault>
    requires { (t.n ≤ 7) × (t.role ≤ 1) × (t.index ≤ length b.now) × (length b.now ≤ 2118) }
    ensures { reading_of fault_of result ≡ on_result behind_of (row_at b.now (trailer_of t) q at) }
{
    let index = t.index as usize;
    let cut = Fault::Row {
        state: q,
        offset: t.index,
    };
    if index <= at {
        return Err(cut);
    }
    let count = b[at] as usize;
    if count < 1 || 8 < count {
        return Err(Fault::Ready {
            state: q,
            offset: at as u16,
        });
    }
    let behind = at + 1 + 2 * count;
    if index < behind {
        return Err(cut);
    }
    let union = check_masks(b, t, q, count, at + 1)?;
    check_behind(b, t, q, behind, union)
}

// All states: each row where the index says, directly behind the one before, the last up to the index.
pub fn check_states(b: &[u8], t: Trailer) -> Result<(), Fault>
    requires whole { (good_trailer (trailer_of t) ≡ true)
        × (t.index + 2 * t.count + 6 ≡ length b.now)
        × (length b.now ≤ 2118) }
    ensures { reading_of fault_of result ≡ whole (states_from b.now (trailer_of t) t.count 0 0) }
{
    let index = t.index as usize;
    let mut next: usize = 0;
    for q in 0..t.count {
        let entry = index + 2 * (q as usize);
        if word_at(b, entry) as usize != next {
            return Err(Fault::Row {
                state: q,
                offset: entry as u16,
            });
        }
        next = check_row(b, t, q, next)?;
    }
    if next != index {
        return Err(Fault::Row {
            state: t.count - 1,
            offset: next as u16,
        });
    }
    Ok(())
}
