// The parts of a sheet from tables of numbers: rows, index and trailer, each measured and written. Document 01, "Contracts as sheets". A
// writer puts its bytes at the front of what it is lent and leaves what stands behind as it was, so the next writer is lent the rest.
ghost use Rattle.std.specs.Prelude.{◌≡◌, cond, List, [], ◌∷◌, ◌++◌, ℕ, ◌+◌, ◌*◌, ◌≤◌, length};
ghost use Rattle.model.specs.Bytes.{le16};
ghost use Rattle.sheet.specs.Union.{union_of, ones_below};
ghost use Rattle.little_endian.specs.Front.{front, Wrote};
ghost use Rattle.nodes.specs.SheetBytes.{mask_bytes, state_row_bytes, layout_rows, layout_index};
ghost use Rattle.nodes.specs.Tables.{ready_at, state_with, successors_of, state_in, states_in, row_size};
ghost use Rattle.nodes.specs.Tables.{HeldSets, Held};

use little_endian::{put_byte, put_word};
use sheet::ones_below;

// The union of ready sets, as a mask.
fn union_of(masks: &[u16]) -> u16
    ensures { result ≡ union_of masks.now }
{
    let mut union: u16 = 0;
    for &m in masks {
        union |= m;
    }
    union
}

// How many bytes the row of a state with these ready sets has.
fn row_length(masks: &[u16]) -> usize
    requires { length masks.now ≤ 8 }
    ensures { result ≡ row_size masks.now }
{
    1 + 2 * masks.len() + ones_below(union_of(masks), 14)
}

// How many bytes the row of state q has.
fn row_length_at(sizes: &[u8], ready: &[u16], q: u8) -> usize
    requires { HeldSets sizes.now ready.now (q + 1) }
    ensures { result ≡ row_size (ready_at sizes.now ready.now q) }
{
    let from = 8 * (q as usize);
    let end = from + sizes[q as usize] as usize;
    row_length(&ready[from..end])
}

// How many bytes the rows of the first `count` states have, whatever their successors are: 31 each at most.
pub fn rows_length(sizes: &[u8], ready: &[u16], count: u8) -> usize
    requires { HeldSets sizes.now ready.now count }
    ensures { (result ≤ 31 * count) × ((next : List ℕ) → result ≡ length (layout_rows state_row_bytes (states_in
        (record { sizes = sizes.entry.now; ready = ready.now; next = next }) count))) }
{
    let mut at: usize = 0;
    for q in 0..count {
        at += row_length_at(sizes, ready, q);
    }
    at
}

// Masks, one behind the other.
fn put_masks(masks: &[u16], out: &mut [u8])
    requires { 2 * length masks.now ≤ length out.old }
    ensures { out.new ≡ front (mask_bytes masks.now) out.old }
{
    for (i, &m) in masks.iter().enumerate() {
        put_word(&mut out[2 * i..], m);
    }
}

// A byte, if it is wanted: how many bytes that makes.
fn put_if(out: &mut [u8], wanted: bool, x: u8) -> usize
    requires { length (cond wanted (x ∷ []) []) ≤ length out.old }
    ensures { Wrote (cond wanted (x ∷ []) []) result out.old out.new }
{
    if wanted {
        put_byte(out, x);
        return 1;
    }
    0
}

// The successors of the actions in a mask, actions ascending, that of action j from place base + j: how many they are.
fn put_successors(next: &[u8], base: usize, actions: u16, out: &mut [u8]) -> usize
    requires { (base + 14 ≤ length next.now) × (ones_below actions 14 ≤ length out.old) }
    ensures { Wrote (successors_of next.now base actions) result out.old out.new }
{
    let mut at: usize = 0;
    for j in 0..14 {
        at += put_if(&mut out[at..], bits::has(actions, j), next[base + j]);
    }
    at
}

// The row of a state with these ready sets: how many bytes it has.
fn put_row(masks: &[u16], next: &[u8], base: usize, out: &mut [u8]) -> usize
    requires { (length masks.now ≤ 8) × (base + 14 ≤ length next.now) × (row_size masks.now ≤ length out.old) }
    ensures { Wrote (state_row_bytes (state_with masks.now next.now base)) result
        out.old out.new }
{
    let behind = 1 + 2 * masks.len();
    put_byte(out, masks.len() as u8);
    put_masks(masks, &mut out[1..]);
    behind + put_successors(next, base, union_of(masks), &mut out[behind..])
}

// The row of state q: how many bytes it has.
fn put_row_at(sizes: &[u8], ready: &[u16], next: &[u8], q: u8, out: &mut [u8]) -> usize
    requires { Held (record { sizes = sizes.now; ready = ready.now; next = next.now }) (q + 1)
        × (row_size (ready_at sizes.now ready.now q) ≤ length out.old) }
    ensures { Wrote (state_row_bytes (state_in
        (record { sizes = sizes.entry.now; ready = ready.now; next = next.now }) q)) result
        out.old out.new }
{
    let from = 8 * (q as usize);
    let end = from + sizes[q as usize] as usize;
    put_row(&ready[from..end], next, 14 * (q as usize), out)
}

// The rows of the first `count` states, each directly behind the row before.
pub fn put_rows(sizes: &[u8], ready: &[u16], next: &[u8], count: u8, out: &mut [u8])
    requires { Held (record { sizes = sizes.now; ready = ready.now; next = next.now }) count
        × (length (layout_rows state_row_bytes (states_in (record { sizes = sizes.now; ready = ready.now; next = next.now }) count))
        ≤ length out.old) }
    ensures { out.new ≡ front (layout_rows state_row_bytes (states_in
        (record { sizes = sizes.entry.now; ready = ready.now; next = next.now }) count)) out.old }
{
    let mut at: usize = 0;
    for q in 0..count {
        at += put_row_at(sizes, ready, next, q, &mut out[at..]);
    }
}

// The index: the offset of the row of each of the first `count` states, the first at 0, whatever their successors are.
pub fn put_index(sizes: &[u8], ready: &[u16], count: u8, out: &mut [u8])
    requires { HeldSets sizes.now ready.now count × (2 * count ≤ length out.old) }
    ensures { (next : List ℕ) → out.new ≡ front (layout_index state_row_bytes 0 (states_in
        (record { sizes = sizes.entry.now; ready = ready.now; next = next }) count)) out.old }
{
    let mut row: usize = 0;
    for q in 0..count {
        put_word(&mut out[2 * (q as usize)..], row as u16);
        row += row_length_at(sizes, ready, q);
    }
}

// The trailer: the offset of the index, the state count, n, the role of a service, and the closing byte.
pub fn put_trailer(out: &mut [u8], index: u16, count: u8, n: u8)
    requires { 6 ≤ length out.old }
    ensures { out.new ≡ front (le16 index ++ count ∷ n ∷ 0 ∷ 0xC5 ∷ []) out.old }
{
    put_word(out, index);
    put_byte(&mut out[2..], count);
    put_byte(&mut out[3..], n);
    put_byte(&mut out[4..], 0);
    put_byte(&mut out[5..], 0xC5);
}
