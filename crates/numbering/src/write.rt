// The parts of a plan by the numbered states: the rows, and the index.
ghost use Rattle.std.specs.Prelude.{◌≡◌, [], ◌∷◌, ◌-◌, ◌≤◌, ◌<◌, length};
ghost use Rattle.model.specs.Plan.{move_bytes, row_bytes, rows_bytes, index_bytes};
ghost use Rattle.keys.specs.Links.{code_at};
ghost use Rattle.little_endian.specs.Front.{front, Wrote};
ghost use Rattle.numbering.specs.Table.{state_at, kept_row_at, PlanState};
ghost use Rattle.numbering.specs.Writing.{RowToWrite, rows_in, row_in, PartToWrite};

// The work table with the plan's states numbered: how many records are of situations, and how many of these are states.
#[derive(Clone, Copy)]
pub struct Numbered<'a> {
    pub work: &'a [table::Record],
    pub count: usize,
    pub states: u16,
}

impl Numbered<'_> {
    // The situation that is the plan's state p.
    fn state_at(&self, p: usize) -> usize
        requires state { PlanState self.now.count self.now.states p self.now.work.now }
        ensures situation { result ≡ state_at self.now.count p self.now.work.now }
    {
        table::fields::order_of(table::load(self.work, p))
    }

    // How many bytes the row of the plan's state p has: its count, and three for each kept move.
    pub fn row_length_at(&self, p: usize) -> u32
        requires state { PlanState self.now.count self.now.states p self.now.work.now }
        ensures measured { result ≡ length (row_bytes (row_in self.now p)) }
    {
        let y = table::load(self.work, self.state_at(p));
        1 + 3 * y.slots().count_ones()
    }

    // The row of a state's situation i, at the front of what is lent: its length.
    fn write_row(&self, i: usize, out: &mut [u8]) -> usize
        requires writing { RowToWrite self.now.count i self.now.work.now out.old }
        ensures written { Wrote (row_bytes (kept_row_at self.now.count i self.now.work.now)) result out.old out.new }
    {
        let y = table::load(self.work, i);
        let mut rest = y.slots();
        little_endian::put_byte(out, rest.count_ones() as u8);
        let mut at: usize = 1;
        while rest != 0 {
            let slot = keys::lowest(rest);
            let link = table::next_at(self.work, i, slot);
            let t = table::load(self.work, table::fields::place_of(link));
            write_move(&mut out[at..], slot, t.number);
            at += 3;
            rest = keys::without_lowest(rest);
        }
        at
    }

    // The rows of the states, each into the rest of what is lent, directly behind the row before: their length.
    pub fn write_rows(&self, out: &mut [u8]) -> u32
        requires writing { PartToWrite (rows_bytes (rows_in self.now)) self.now out.old }
        ensures written { Wrote (rows_bytes (rows_in self.now)) result out.old out.new }
    {
        let mut at: usize = 0;
        for p in 0..usize::from(self.states) {
            at += self.write_row(self.state_at(p), &mut out[at..]);
        }
        at as u32
    }

    // The index: the offset of each row, the first at 0.
    pub fn write_index(&self, out: &mut [u8])
        requires writing { PartToWrite (index_bytes 0 (rows_in self.now)) self.now out.old }
        ensures written { out.new ≡ front (index_bytes 0 (rows_in self.now)) out.old }
    {
        let mut row: u32 = 0;
        for p in 0..usize::from(self.states) {
            little_endian::put_dword(&mut out[4 * p..], row);
            row += self.row_length_at(p);
        }
    }
}

// The move of a slot to the state with a number, at the front of what is lent.
fn write_move(out: &mut [u8], slot: usize, number: u16)
    requires { (slot < 42) × (0 < number) × (3 ≤ length out.old) }
    ensures { out.new
        ≡ front (move_bytes (record { code = code_at slot; to = number - 1 } ∷ [])) out.old }
{
    plan::write::put_move(out, keys::code_at(slot as u8), number - 1);
}
