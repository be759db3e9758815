// All unions of a mask of one family and a mask of another, by halving: the families by their highest action, and so on down to the bits of
// one number.
ghost use Rattle.std.specs.Prelude.{◌≡◌, ℕ, ◌+◌, ◌^◌, ◌<◌, ◌≤◌, length, get_or, T};
ghost use Rattle.std.specs.Int.Bits.{bit_or};
ghost use Rattle.families.specs.Families.{in_family};
ghost use Rattle.families.specs.Joining.{Joined, Within, Sizes};

use crate::gained_within;

// Numbers in half a family.
const HALF: usize = 128;

// ---- in a number

// All unions of a place in a number and the first place in another: the number itself, or nothing.
fn unions_first(word: u64, other: u64) -> u64
    ensures { Within 1 word other result }
{
    if bits::has(other, 0) { word } else { 0 }
}

// All unions of a place in a number and one of the first 2 ^ (j + 1) places in another, by a function for half as many: a place in the
// upper half has bit j, which the number gains before.
fn by_halves<F: Fn(u64, u64) -> u64>(word: u64, other: u64, j: u8, half: F) -> u64
    requires places { j < 6 }
    requires any { F.IsAlwaysCallable half }
    requires unions { (w o r : ℕ) → F.post half w o r → Within (2 ^ j) w o r }
    ensures { Within (2 ^ (j + 1)) word other result }
{
    let places: u64 = 1 << j;
    let low = other & ((1 << places) - 1);
    half(word, low) | half(gained_within(word, j), other >> places)
}

// All unions of a place in a number and one of the first eight places in another, with no test on the way.
fn unions_low(word: u64, other: u64) -> u64
    ensures { Within 8 word other result }
{
    let two = |w: u64, o: u64| by_halves(w, o, 0, unions_first);
    let four = |w: u64, o: u64| by_halves(w, o, 1, two);
    by_halves(word, other, 2, four)
}

// All unions of a place in a number and one of the first 2 ^ bits places in another, half by half. For an empty half nothing is done.
#[cycle(unions_within)]
fn unions_within(word: u64, other: u64, bits: u8) -> u64
    requires { (3 ≤ bits) × (bits ≤ 6) }
    ensures { Within (2 ^ bits) word other result }
{
    if other == 0 {
        return 0;
    }
    if bits == 3 {
        return unions_low(word, other);
    }
    let j = bits - 1;
    let half = |w: u64, o: u64|
        requires { (3 ≤ j) × (j ≤ 6) }
        ensures { Within (2 ^ j) w o result }
    { unions_within(w, o, j) };
    by_halves(word, other, j, half)
}

// ---- number by number

// Whether some numbers of a family have no mask. Looked at from both ends on: families of few masks have them at either.
fn no_mask(words: &[u64]) -> bool
    ensures { (T result → (i : ℕ) → i < length words.now → get_or words.now i 0 ≡ 0)
        × (((i : ℕ) → i < length words.now → get_or words.now i 0 ≡ 0) → T result) }
{
    let end = words.len();
    for i in 0..(end + 1) / 2 {
        if words[i] != 0 || words[end - 1 - i] != 0 {
            return false;
        }
    }
    true
}

// The masks of the first h numbers and those of the h numbers behind them, together.
fn either_half(words: &[u64], h: usize, both: &mut [u64])
    requires { (length words.now ≡ h + h) × (h ≤ length both.old) }
    ensures { (length both.new ≡ length both.old) × ((i : ℕ) → i < h
        → get_or both.new i 0 ≡ bit_or (get_or words.now i 0) (get_or words.now (h + i) 0)) }
{
    for w in 0..h {
        both[w] = words[w] | words[h + w];
    }
}

// All unions of a mask of 2 ^ bits numbers and a mask of as many others, put to those that are there. The highest action parts the numbers
// in two halves: a union without it is one of masks without it, and one with it has a mask that has it.
pub fn unions(one: &[u64], other: &[u64], bits: usize, out: &mut [u64])
    requires { Sizes bits one.now other.now out.old }
    ensures { (length out.new ≡ 2 ^ bits) × Joined (in_family out.old) (in_family one.now)
        (in_family other.now) (2 ^ (6 + bits)) (2 ^ (6 + bits)) (in_family out.new) }
{
    if no_mask(one) {
        return;
    }
    if no_mask(other) {
        return;
    }
    if bits == 0 {
        out[0] |= unions_within(one[0], other[0], 6);
        return;
    }
    let h = out.len() / 2;
    unions(&one[..h], &other[..h], bits - 1, &mut out[..h]);
    unions(&one[..h], &other[h..], bits - 1, &mut out[h..]);
    let mut both = [0u64; HALF];
    either_half(other, h, &mut both);
    unions(&one[h..], &both[..h], bits - 1, &mut out[h..]);
}
