// Families: sets of masks, a mask being a set of the actions 0 to 13. A family is kept in 256 numbers of 64 bits: mask m is in it if bit
// m % 64 of number m / 64 is set.
#![tactic(auto)]

ghost use Rattle.std.specs.Prelude.{◌≡◌, cond, ◌&&◌, ◌||◌, ℕ, ◌+◌, ◌-◌, ◌^◌, ◌<◌, ◌≤◌, min, length, get_or, take, T, eqb};
ghost use Rattle.std.specs.Int.Bits.{bit_or};
ghost use Rattle.model.specs.Contract.{has};
ghost use Rattle.little_endian.specs.Front.{front};
ghost use Rattle.families.specs.Families.{in_family, masks_of, masks_in, Forced, Unions};

mod joining;

use joining::unions;

// The public functions take slices of so many numbers, and not a type of their own: docs/ARCHITECTURE.md names them, and a narrower type
// asks more.
const WORDS: usize = 256;

// Masks written at most.
const MOST: usize = 8;

// The family that has the empty mask and no other.
pub fn only_empty(family: &mut [u64])
    requires { length family.old ≡ 256 }
    ensures { (length family.new ≡ 256)
        × ((m : ℕ) → m < 16384 → in_family family.new m ≡ eqb m 0) }
{
    family.fill(0);
    family[0] = 1;
}

// A family, with one mask more.
pub fn put(family: &mut [u64], mask: u16)
    requires { (length family.old ≡ 256) × (mask < 16384) }
    ensures { (length family.new ≡ 256) × ((m : ℕ) → m < 16384
        → in_family family.new m ≡ (in_family family.old m || eqb m mask)) }
{
    let w = (mask / 64) as usize;
    family[w] |= 1 << (mask % 64);
}

// A family, with the masks of another.
pub fn unite(family: &mut [u64], other: &[u64])
    requires { (length family.old ≡ 256) × (length other.now ≡ 256) }
    ensures { (length family.new ≡ 256) × ((m : ℕ) → m < 16384
        → in_family family.new m ≡ (in_family family.old m || in_family other.now m)) }
{
    for (w, word) in family.iter_mut().enumerate() {
        *word |= other[w];
    }
}

// Whether two families are the same.
pub fn same(one: &[u64], other: &[u64]) -> bool
    requires { (length one.now ≡ 256) × (length other.now ≡ 256) }
    ensures { (T result → one.now ≡ other.now) × (one.now ≡ other.now → T result) }
{
    one == other
}

// A family in the place of another.
pub fn copy(from: &[u64], to: &mut [u64])
    requires { (length from.now ≡ 256) × (length to.old ≡ 256) }
    ensures { to.new ≡ from.now }
{
    to.copy_from_slice(from);
}

// ---- an action gained

// The places in a number that have bit j, as a number, for each j.
const PLACES_WITH: [u64; 6] = [
    0xAAAAAAAAAAAAAAAA,
    0xCCCCCCCCCCCCCCCC,
    0xF0F0F0F0F0F0F0F0,
    0xFF00FF00FF00FF00,
    0xFFFF0000FFFF0000,
    0xFFFFFFFF00000000,
];

// A number of a family after its masks have gained action j, which leads from place to place within the number.
fn gained_within(word: u64, j: u8) -> u64
    requires { j < 6 }
    ensures { (p : ℕ) → p < 64 → has result p ≡ (has p j && (has word p || has word (p - 2 ^ j))) }
{
    let step: u64 = 1 << j;
    (word | (word << step)) & PLACES_WITH[j as usize]
}

// Every mask gains an action below 6: each number by itself.
fn gain_low(family: &mut [u64], j: u8)
    requires { (length family.old ≡ 256) × (j < 6) }
    ensures { (length family.new ≡ 256) × Forced j family.old family.new }
{
    for word in family.iter_mut() {
        *word = gained_within(*word, j);
    }
}

// Number w of a family after its masks have gained action 6 + b, which leads from number to number.
fn gained_across(family: &[u64], w: usize, b: u8) -> u64
    requires { (w < length family.now) × (b < 8) }
    ensures { result ≡ cond (has w b) (bit_or (get_or family.now w 0) (get_or family.now (w - 2 ^ b) 0)) 0 }
{
    let step: usize = 1 << b;
    if bits::has(w as u64, b as usize) {
        family[w] | family[w - step]
    } else {
        0
    }
}

// Every mask gains action 6 + b: numbers go to places further up, from the last on.
fn gain_high(family: &mut [u64], b: u8)
    requires { (length family.old ≡ 256) × (b < 8) }
    ensures { (length family.new ≡ 256) × Forced (6 + b) family.old family.new }
{
    for w in (0..WORDS).rev() {
        family[w] = gained_across(family, w, b);
    }
}

// Every mask gains action j.
pub fn gain(family: &mut [u64], j: u8)
    requires { (length family.old ≡ 256) × (j < 14) }
    ensures { (length family.new ≡ 256) × Forced j family.old family.new }
{
    if j < 6 {
        gain_low(family, j);
    } else {
        gain_high(family, j - 6);
    }
}

// ---- unions

// All unions of a mask of a family and a mask of another, in the place of the first.
pub fn join(family: &mut [u64], other: &[u64])
    requires { (length family.old ≡ 256) × (length other.now ≡ 256) }
    ensures { (length family.new ≡ 256) × Unions family.old other.now family.new }
{
    let mut all = [0u64; WORDS];
    unions(family, other, 8, &mut all);
    copy(&all, family);
}

// ---- the masks in order

// The masks that number w of a family has, `room` of them at most. Gives how many there are, one more than `room` if they are more.
fn masks_in(word: u64, w: usize, out: &mut [u16], room: usize) -> usize
    requires { (w < 256) × (room ≤ 8) × (room ≤ length out.old) }
    ensures { (result ≡ min (room + 1) (length (masks_in w word)))
        × (out.new ≡ front (take room (masks_in w word)) out.old) }
{
    let mut rest = word;
    let mut n: usize = 0;
    while rest != 0 {
        if n == room {
            return n + 1;
        }
        out[n] = (64 * w + rest.trailing_zeros() as usize) as u16;
        n += 1;
        rest &= rest - 1;
    }
    n
}

// The masks of a family, ascending, eight of them at most. Gives how many there are, 9 if more than eight.
// A count, as it stands in a table until all states are found: 19 is told before 20.
pub fn masks(family: &[u64], out: &mut [u16]) -> u8
    requires { (length family.now ≡ 256) × (8 ≤ length out.old) }
    ensures { (result ≡ min 9 (length (masks_of family.now)))
        × (out.new ≡ front (take 8 (masks_of family.now)) out.old) }
{
    let mut n: usize = 0;
    for (w, word) in family.iter().enumerate() {
        n += masks_in(*word, w, &mut out[n..], MOST - n);
        if n > MOST {
            return 9;
        }
    }
    n as u8
}
