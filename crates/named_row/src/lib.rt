// The row of a state in whichever of two sheets is named: its own bytes, which part of the sheet they are, or why there are none. Document
// 02, request 6/13.
#![tactic(auto)]

ghost use Rattle.std.specs.Prelude.{◌≡◌};
ghost use Rattle.model.specs.Contract.{state};
ghost use Rattle.model.specs.Sheet.{row_start, contract_in};
ghost use Rattle.sheet.specs.Whole.{IsState};
ghost use Rattle.named_row.specs.Row.{row_length, row_in_sheet, row_in, row_part_of, row_refusal_of};
ghost use Rattle.sheet.specs.Answers.{reading_of, on_result};
ghost use Rattle.named_row.specs.Answers.{part_of, refusal_of, why_of, IsPart};

use sheet::Fault;

// A part of one of two sheets: the sheet, 1 or 2, the offset in it at which the part begins, and how long the part is.
#[repr(C)]
#[derive(Clone, Copy)]
pub struct Part {
    pub sheet: u8,
    pub offset: u16,
    pub length: u16,
}

// Why no row is handed back: number, sheet and state, and the offset of the byte at fault; all 0 where there is a row.
#[repr(C)]
#[derive(Clone, Copy)]
pub struct RowRefusal {
    pub number: u8,
    pub sheet: u8,
    pub state: u8,
    pub offset: u16,
}

// Why there is no row: the sheet that is named is none, the state is not in it, or the number names no sheet.
#[derive(Clone, Copy)]
enum Why {
    Sheet(u8, Fault),
    State,
    Unnamed,
}

#[tactic(auto, unfolding(crate::specs::Answers::refusal_of))]
impl From<Why> for RowRefusal {
    ghost from_gives = { λ why r. r ≡ refusal_of (why_of why) };

    fn from(why: Why) -> RowRefusal {
        let (number, sheet, state, offset) = match why {
            Why::Sheet(sheet, fault) => (fault.number(), sheet, fault.state(), fault.offset()),
            Why::State => (15, 0, 0, 0),
            Why::Unnamed => (8, 0, 0, 0),
        };
        RowRefusal {
            number,
            sheet,
            state,
            offset,
        }
    }
}

// The row of state q in the sheet with a number.
fn part_in(sheet: u8, b: &[u8], q: u8) -> Part
    requires { IsState b.now q }
    ensures { result ≡ record {
      sheet = sheet;
      offset = row_start b.now q;
      length = row_length (state (contract_in b.now) q);
    } }
{
    let begin = sheet::row_start(b, q);
    let end = sheet::place_in(sheet::offer_of(b, q), 14);
    Part {
        sheet,
        offset: begin as u16,
        length: (end - begin) as u16,
    }
}

// The same, or why there is none: the sheet is refused, or the state is not in it.
fn find_in(sheet: u8, b: &[u8], q: u8) -> Result<Part, Why>
    ensures { reading_of why_of result ≡ on_result part_of (row_in_sheet sheet b.now q) }
{
    sheet::check_sheet(b).map_err(|fault| Why::Sheet(sheet, fault))?;
    if sheet::state_count(b) <= q {
        return Err(Why::State);
    }
    Ok(part_in(sheet, b, q))
}

// The row of a state in the sheet that is named.
fn find(first: &[u8], second: &[u8], sheet: u8, q: u8) -> Result<Part, Why>
    ensures { reading_of why_of result ≡ on_result part_of (row_in first.now second.now sheet q) }
{
    match sheet {
        1 => find_in(1, first, q),
        2 => find_in(2, second, q),
        _ => Err(Why::Unnamed),
    }
}

// Which part of the named sheet the row of a state is; the empty part of the first sheet where there is a refusal.
pub fn row_part(first: &[u8], second: &[u8], sheet: u8, state: u8) -> Part
    ensures { result ≡ part_of (row_part_of first.now second.now sheet state) }
{
    find(first, second, sheet, state).unwrap_or(Part {
        sheet: 1,
        offset: 0,
        length: 0,
    })
}

// Why there is no such row, or all 0.
pub fn row_refusal(first: &[u8], second: &[u8], sheet: u8, state: u8) -> RowRefusal
    ensures { result ≡ refusal_of (row_refusal_of first.now second.now sheet state) }
{
    match find(first, second, sheet, state) {
        Ok(_) => RowRefusal {
            number: 0,
            sheet: 0,
            state: 0,
            offset: 0,
        },
        Err(why) => RowRefusal::from(why),
    }
}

// The row's own bytes: that part of the sheet itself.
pub fn row_bytes<'a>(first: &'a [u8], second: &'a [u8], sheet: u8, state: u8) -> &'a [u8]
    ensures { IsPart (row_part_of first.now second.now sheet state) first.entry second.entry result }
{
    let part = row_part(first, second, sheet, state);
    let begin = part.offset as usize;
    let end = begin + part.length as usize;
    if part.sheet == 2 {
        return &second[begin..end];
    }
    &first[begin..end]
}
