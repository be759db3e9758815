// Contract sheets: whether bytes are a sheet, and what stands in one. Document 01, "Contracts as sheets".
#![tactic(auto)]

ghost use Rattle.std.specs.Prelude.{◌≡◌, Bool, ℕ, ◌^◌, ◌≤◌, ◌<◌, length, get_or};
ghost use Rattle.model.specs.Lists.{any, all};
ghost use Rattle.model.specs.Bytes.{byte};
ghost use Rattle.model.specs.Contract.{partner, state, has, after};
ghost use Rattle.model.specs.Sheet.{row_start, read_sheet, contract_in, role_in};
ghost use Rattle.sheet.specs.Union.{union_of, ones_below};
ghost use Rattle.sheet.specs.Answers.{fault_of, reading_of, whole};
ghost use Rattle.sheet.specs.Whole.{IsSheet, IsState};
ghost use Rattle.sheet.specs.Tests.{Computes, asked};
ghost use Rattle.sheet.specs.Offer.{offer_in, place_in, IsOffered};

pub mod parts;

use little_endian::word_at;
use parts::{check_states, good_trailer, read_trailer};

// What stands above the fourteen bits of actions in a mask.
pub const ACTION_BITS: u16 = 16384;

// Why bytes are no sheet: refusals 1 to 7 of document 01's table, in its order and by its words. Those that are found state by
// state carry the state and the offset of the byte at fault.
#[derive(Clone, Copy, Debug, PartialEq, Eq)]
pub enum Fault {
    Length,
    Trailer,
    Index,
    Row { state: u8, offset: u16 },
    Ready { state: u8, offset: u16 },
    Action { state: u8, offset: u16 },
    Successor { state: u8, offset: u16 },
}

impl Fault {
    // Its number in the table.
    pub fn number(self) -> u8
        ensures { result ≡ (fault_of self).number }
    {
        match self {
            Fault::Length => 1,
            Fault::Trailer => 2,
            Fault::Index => 3,
            Fault::Row { .. } => 4,
            Fault::Ready { .. } => 5,
            Fault::Action { .. } => 6,
            Fault::Successor { .. } => 7,
        }
    }

    // The state that it is for, 0 where it is for none.
    pub fn state(self) -> u8
        ensures { result ≡ (fault_of self).state }
    {
        match self {
            Fault::Length | Fault::Trailer | Fault::Index => 0,
            Fault::Row { state, .. }
            | Fault::Ready { state, .. }
            | Fault::Action { state, .. }
            | Fault::Successor { state, .. } => state,
        }
    }

    // The offset of the byte at fault, 0 where no state is.
    pub fn offset(self) -> u16
        ensures { result ≡ (fault_of self).offset }
    {
        match self {
            Fault::Length | Fault::Trailer | Fault::Index => 0,
            Fault::Row { offset, .. }
            | Fault::Ready { offset, .. }
            | Fault::Action { offset, .. }
            | Fault::Successor { offset, .. } => offset,
        }
    }
}

// What a state offers: its actions, as a mask, and where the successors in its row begin.
#[repr(C)]
#[derive(Clone, Copy)]
pub struct Offer {
    pub actions: u16,
    pub successors: usize,
}

// Whether a mask has bit j.
pub fn has_bit(mask: u16, j: u8) -> bool
    requires { j < 16 }
    ensures { result ≡ has mask j }
{
    bits::has(mask, usize::from(j))
}

// An action's partner.
pub fn partner(j: u8) -> u8
    requires action { j < 14 }
    ensures { (result ≡ partner j) × (result < 14) }
{
    if j < 7 { j + 7 } else { j - 7 }
}

// How many of the bits below j a mask has.
pub fn ones_below(mask: u16, j: u8) -> usize
    requires { j ≤ 16 }
    ensures { result ≡ ones_below mask j }
{
    let below: u32 = (1 << j) - 1;
    (u32::from(mask) & below).count_ones() as usize
}

// Whether bytes are a sheet, or the first of refusals 1 to 7.
pub fn check_sheet(b: &[u8]) -> Result<(), Fault>
    ensures { reading_of fault_of result ≡ whole (read_sheet b.now) }
{
    if b.len() < 6 || 2118 < b.len() {
        return Err(Fault::Length);
    }
    let t = read_trailer(b);
    if !good_trailer(t) {
        return Err(Fault::Trailer);
    }
    if t.index as usize + 2 * (t.count as usize) + 6 != b.len() {
        return Err(Fault::Index);
    }
    check_states(b, t)
}

// How many names a sheet is over.
pub fn name_count(b: &[u8]) -> u8
    requires { IsSheet b.now }
    ensures { result ≡ (contract_in b.now).n }
{
    read_trailer(b).n
}

// How many states a sheet has.
pub fn state_count(b: &[u8]) -> u8
    requires { IsSheet b.now }
    ensures { result ≡ length (contract_in b.now).states }
{
    read_trailer(b).count
}

// A sheet's role: 0 service, 1 client.
pub fn role(b: &[u8]) -> u8
    requires { IsSheet b.now }
    ensures { result ≡ role_in b.now }
{
    read_trailer(b).role
}

// Where the row of state q begins.
pub fn row_start(b: &[u8], q: u8) -> usize
    requires { IsState b.now q }
    ensures { result ≡ row_start b.now q }
{
    let index = word_at(b, b.len() - 6) as usize;
    word_at(b, index + 2 * (q as usize)) as usize
}

// How many ready sets state q has.
pub fn ready_count(b: &[u8], q: u8) -> u8
    requires { IsState b.now q }
    ensures { result ≡ length (state (contract_in b.now) q).ready }
{
    b[row_start(b, q)]
}

// Ready set i of state q, as a mask.
pub fn ready_set(b: &[u8], q: u8, i: u8) -> u16
    requires { IsState b.now q × (i < length (state (contract_in b.now) q).ready) }
    ensures { result ≡ get_or (state (contract_in b.now) q).ready i 0 }
{
    word_at(b, row_start(b, q) + 1 + 2 * (i as usize))
}

// Whether a test passes at some ready set of state q.
pub fn any_ready<F: Fn(u16) -> bool>(b: &[u8], q: u8, test: F) -> bool
    requires state { IsState b.now q }
    requires callable { (mask : ℕ) → mask < 65536 → F.pre test mask }
    ensures { (p : ℕ → Bool) → Computes (F.post test) p → result ≡ any p (state (contract_in b.now) q).ready }
{
    decide(b, q, true, test)
}

// Whether a test passes at every ready set of state q.
pub fn all_ready<F: Fn(u16) -> bool>(b: &[u8], q: u8, test: F) -> bool
    requires state { IsState b.now q }
    requires callable { (mask : ℕ) → mask < 65536 → F.pre test mask }
    ensures { (p : ℕ → Bool) → Computes (F.post test) p → result ≡ all p (state (contract_in b.now) q).ready }
{
    decide(b, q, false, test)
}

// Whether a test answers `stop` at some ready set of state q: `stop` if it does, else the contrary. So the ready sets are asked whether any
// passes, or whether all do.
fn decide<F: Fn(u16) -> bool>(b: &[u8], q: u8, stop: bool, test: F) -> bool
    requires state { IsState b.now q }
    requires callable { (mask : ℕ) → mask < 65536 → F.pre test mask }
    ensures { (p : ℕ → Bool) → Computes (F.post test) p → result ≡ asked p stop (state (contract_in b.now) q).ready }
{
    for i in 0..ready_count(b, q) {
        if test(ready_set(b, q, i)) == stop {
            return stop;
        }
    }
    !stop
}

// The union of the ready sets of state q, as a mask.
fn offered(b: &[u8], q: u8) -> u16
    requires { IsState b.now q }
    ensures { result ≡ union_of (state (contract_in b.now) q).ready }
{
    let mut union = 0;
    for i in 0..ready_count(b, q) {
        union |= ready_set(b, q, i);
    }
    union
}

// What state q offers.
pub fn offer_of(b: &[u8], q: u8) -> Offer
    requires { IsState b.now q }
    ensures { result ≡ offer_in b.now q }
{
    Offer {
        actions: offered(b, q),
        successors: row_start(b, q) + 1 + 2 * (ready_count(b, q) as usize),
    }
}

// Where the successor of action j stands, by what its state offers.
pub fn place_in(offer: Offer, j: u8) -> usize
    requires { (j ≤ 16) × (place_in offer j < 2 ^ 64) }
    ensures { result ≡ place_in offer j }
{
    offer.successors + ones_below(offer.actions, j)
}

// The successor of action j, where it stands among those of an offer.
pub fn successor_in(b: &[u8], offer: Offer, j: u8) -> u8
    requires { (j ≤ 16) × (place_in offer j < length b.now) }
    ensures { result ≡ byte b.now (place_in offer j) }
{
    b[place_in(offer, j)]
}

// The state that state q goes on to by an action j that it offers.
pub fn successor(b: &[u8], q: u8, j: u8) -> u8
    requires { IsOffered b.now q j }
    ensures { result ≡ after (state (contract_in b.now) q) j }
{
    successor_in(b, offer_of(b, q), j)
}
