// Choosing sheets read into tables of numbers, or refused as none. Request 1/13.
#![tactic(auto)]

ghost use Rattle.std.specs.Prelude.{◌≡◌, List, ℕ, ◌+◌, ◌*◌, ◌≤◌, ◌<◌, length, set, false, true, MatchOption};
ghost use Rattle.model.specs.Lists.{keep};
ghost use Rattle.model.specs.Contract.{actions, has};
ghost use Rattle.model.specs.Sheet.{trailer};
ghost use Rattle.sheet.specs.Answers.{trailer_of};
ghost use Rattle.choosing.specs.Rows.{ChoosingRow, opens, hidden_of};
ghost use Rattle.choosing.specs.Read.{targets_from, group_at, groups_from, hiding_at, open_at, choosing_row_at, choosing_trailer, framed};
ghost use Rattle.nodes.specs.Sets.{set_of};
ghost use Rattle.choosing.specs.Tables.{mask_number};
ghost use Rattle.choosing.specs.Fault.{fault_row};
ghost use Rattle.choosing_rows.specs.Answers.{set_in, group_in, ReadInto, fault_in};
ghost use Rattle.choosing_rows.specs.Holding.{TrailerPlaced, BlankFrom, NoRows, action_at, TargetsPut, RowPut, Room};
ghost use Rattle.choosing_rows.specs.Holding.{AllRead, RowsRead};

use little_endian::word_at;
use sheet::ACTION_BITS;
use sheet::parts::{Trailer, read_trailer, stray_bit, trailer_within};

// "1 to 32 rows".
const ROWS: usize = 32;

// Whether each number of a trailer is in the range for choosing sheets.
fn trailer_fits(t: Trailer) -> bool
    ensures { result ≡ choosing_trailer (trailer_of t) }
{
    trailer_within(t, 32, 0, 0xC6)
}

// The bytes of a choosing sheet, with their trailer, which passed its tests and says how long they are.
#[derive(Clone, Copy)]
struct Framed<'a> {
    bytes: &'a [u8],
    trailer: Trailer,
    ghost placed: { TrailerPlaced bytes.now (trailer_of trailer) },
}

// The bytes with their trailer, if it is that of a choosing sheet and says how long they are.
fn frame(b: &[u8]) -> Option<Framed<'_>>
    ensures { MatchOption result (framed b.now ≡ false)
        (λ sheet. (framed b.now ≡ true) × (sheet.bytes.now ≡ b.now) × (trailer_of sheet.trailer ≡ trailer b.now)) }
{
    if b.len() < 6 {
        return None;
    }
    let trailer = read_trailer(b);
    if !trailer_fits(trailer) {
        return None;
    }
    if trailer.index as usize + 2 * (trailer.count as usize) + 6 != b.len() {
        return None;
    }
    Some(Framed { bytes: b, trailer })
}

impl Framed<'_> {
    // The `count` rows from an offset on: strictly ascending, each one of the sheet's. Gives their set, and where the next part begins.
    fn read_targets(&self, count: usize, at: usize) -> Option<(u32, usize)>
        requires { at + count ≤ length self.now.bytes.now }
        ensures { result ≡ set_in 0 (at + count) (targets_from self.now.bytes.now (trailer_of self.now.trailer) count 0 at) }
    {
        let mut low: u8 = 0;
        let mut set: u32 = 0;
        for &row in &self.bytes[at..at + count] {
            if row < low || self.trailer.count <= row {
                return None;
            }
            low = row + 1;
            set |= 1 << row;
        }
        Some((set, at + count))
    }

    // A count, 1 to 8, and so many rows, all before the index: their set, and where the next part begins.
    fn read_group(&self, at: usize) -> Option<(u32, usize)>
        ensures { result ≡ group_in (group_at self.now.bytes.now (trailer_of self.now.trailer) at) }
    {
        let index = self.trailer.index as usize;
        if index <= at {
            return None;
        }
        let count = self.bytes[at] as usize;
        if count < 1 || 8 < count || index < at + 1 + count {
            return None;
        }
        self.read_targets(count, at + 1)
    }

    // Action j of an open row: nothing if the mask has it not, else a count with its rows, whose set goes to the action's place.
    fn read_action(
        &self,
        mask: u16,
        j: usize,
        at: usize,
        targets: &mut [u32],
        place: usize,
    ) -> Option<usize>
        requires { (j < 14) × (place < length targets.old) × BlankFrom place targets.old }
        ensures { ReadInto (action_at self.now.bytes.now (trailer_of self.now.trailer) mask j at) result
            (λ (l : List ℕ). targets.new ≡ set targets.old place (set_of l)) }
    {
        if !bits::has(mask, j) {
            return Some(at);
        }
        let (set, behind) = self.read_group(at)?;
        targets[place] = set;
        Some(behind)
    }

    // The counts with their rows of an open row, actions ascending. The set of action j goes to place first + j.
    fn read_groups(&self, mask: u16, at: usize, targets: &mut [u32], first: usize) -> Option<usize>
        requires { (first + 14 ≤ length targets.old) × BlankFrom first targets.old }
        ensures { ReadInto (groups_from self.now.bytes.now (trailer_of self.now.trailer) (length (keep (has mask) actions)) at) result
            (λ (l : List (List ℕ)). TargetsPut (opens mask l) first targets.old targets.new) }
    {
        let mut i = at;
        for j in 0..14 {
            i = self.read_action(mask, j, i, targets, first + j)?;
        }
        Some(i)
    }

    // Row r at an offset if it is hiding: its internal moves, and a number above all masks.
    fn read_hiding(
        &self,
        r: usize,
        at: usize,
        hidden: &mut [u32],
        masks: &mut [u16],
    ) -> Option<usize>
        requires { (at < self.now.trailer.index) × (r < length hidden.old) × (r < length masks.old) }
        ensures { ReadInto (hiding_at self.now.bytes.now (trailer_of self.now.trailer) at) result
            (λ (x : ChoosingRow). (hidden.new ≡ set hidden.old r (set_of (hidden_of x)))
            × (masks.new ≡ set masks.old r (mask_number x))) }
    {
        let (set, behind) = self.read_group(at + 1)?;
        hidden[r] = set;
        masks[r] = ACTION_BITS;
        Some(behind)
    }

    // Row r at an offset if it is open: its mask, and what its actions lead to.
    fn read_open(
        &self,
        r: usize,
        at: usize,
        hidden: &mut [u32],
        masks: &mut [u16],
        targets: &mut [u32],
    ) -> Option<usize>
        requires { (at < self.now.trailer.index) × Room r hidden.old masks.old targets.old }
        ensures { ReadInto (open_at self.now.bytes.now (trailer_of self.now.trailer) at) result
            (λ (x : ChoosingRow). RowPut x r hidden.old masks.old targets.old
            hidden.new masks.new targets.new) }
    {
        let index = self.trailer.index as usize;
        if index < at + 3 {
            return None;
        }
        let mask = word_at(self.bytes, at + 1);
        if stray_bit(self.trailer.n, 0, mask) {
            return None;
        }
        hidden[r] = 0;
        masks[r] = mask;
        self.read_groups(mask, at + 3, targets, 14 * r)
    }

    // Row r at an offset.
    fn read_row(
        &self,
        r: usize,
        at: usize,
        hidden: &mut [u32],
        masks: &mut [u16],
        targets: &mut [u32],
    ) -> Option<usize>
        requires { Room r hidden.old masks.old targets.old }
        ensures { ReadInto (choosing_row_at self.now.bytes.now (trailer_of self.now.trailer) at) result
            (λ (x : ChoosingRow). RowPut x r hidden.old masks.old targets.old
            hidden.new masks.new targets.new) }
    {
        let index = self.trailer.index as usize;
        if index <= at {
            return None;
        }
        match self.bytes[at] {
            0 => self.read_hiding(r, at, hidden, masks),
            1 => self.read_open(r, at, hidden, masks, targets),
            _ => None,
        }
    }

    // All rows: each where the index says, directly behind the one before, the last up to the index. Gives the first at fault, if one is. A
    // gap behind the last row counts for that row.
    fn read_all(&self, hidden: &mut [u32], masks: &mut [u16], targets: &mut [u32]) -> Option<u8>
        requires { NoRows hidden.old masks.old targets.old }
        ensures { AllRead self.now.bytes.now (trailer_of self.now.trailer) result
            hidden.new masks.new targets.new }
    {
        let index = self.trailer.index as usize;
        let mut at: usize = 0;
        for r in 0..self.trailer.count as usize {
            if word_at(self.bytes, index + 2 * r) as usize != at {
                return Some(r as u8);
            }
            let Some(behind) = self.read_row(r, at, hidden, masks, targets) else {
                return Some(r as u8);
            };
            at = behind;
        }
        if at != index {
            return Some(self.trailer.count - 1);
        }
        None
    }
}

// The rows of a choosing sheet, put into tables with room for 32 and no target so far: whether the bytes are a choosing
// sheet.
// Slices of numbers side by side: docs/ARCHITECTURE.md names this function, and a narrower type asks more.
pub fn read_rows(b: &[u8], hidden: &mut [u32], masks: &mut [u16], targets: &mut [u32]) -> bool
    requires { NoRows hidden.old masks.old targets.old }
    ensures { RowsRead b.now result hidden.new masks.new targets.new }
{
    let Some(sheet) = frame(b) else {
        return false;
    };
    sheet.read_all(hidden, masks, targets).is_none()
}

// The first row for which bytes are no choosing sheet; none if trailer or length are wrong, or if nothing is.
pub fn faulty_row(b: &[u8]) -> Option<u8>
    ensures { result ≡ fault_in (fault_row b.now) }
{
    let sheet = frame(b)?;
    let mut hidden = [0u32; ROWS];
    let mut masks = [0u16; ROWS];
    let mut targets = [0u32; 14 * ROWS];
    sheet.read_all(&mut hidden, &mut masks, &mut targets)
}
