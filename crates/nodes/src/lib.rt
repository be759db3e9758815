// Sheets from nodes: the sheet of a contract whose states stand in tables of numbers, written into what is lent. Request 1/13: "A
// converter writes an ordinary sheet".
#![tactic(auto)]

ghost use Rattle.std.specs.Prelude.{◌≡◌, MatchResult};
ghost use Rattle.model.specs.Sheet.{good};
ghost use Rattle.nodes.specs.SheetBytes.{sheet_bytes};
ghost use Rattle.nodes.specs.Answer.{written, written_as, refusal_of, refused_as};
ghost use Rattle.nodes.specs.Tables.{states_in, Held};

pub mod found;
pub mod search;
mod write;

use write::{put_index, put_rows, put_trailer, rows_length};

// What a converter answers: number, sheet and state of a refusal, and the length of what it wrote.
#[repr(C)]
#[derive(Clone, Copy)]
pub struct SheetAnswer {
    pub number: u8,
    pub sheet: u8,
    pub state: u8,
    pub length: u16,
}

impl<E: Into<SheetAnswer>> From<Result<u16, E>> for SheetAnswer {
    ghost from_gives = { λ made answer. MatchResult made (λ size. answer ≡ record { number = 0; sheet = 0; state = 0; length = size })
        (λ e. E.converts e answer) };

    fn from(made: Result<u16, E>) -> SheetAnswer {
        match made {
            Ok(length) => SheetAnswer {
                number: 0,
                sheet: 0,
                state: 0,
                length,
            },
            Err(refusal) => refusal.into(),
        }
    }
}

// Why there is no sheet of some states.
#[derive(Clone, Copy, Debug, PartialEq, Eq)]
pub enum Refusal {
    // 13: the lent output is shorter than the sheet.
    NoRoom,
    // 19: there are more than 64 states.
    ManyStates,
    // 20: a state has more than 8 ready sets.
    ManyReadySets,
}

impl From<Refusal> for SheetAnswer {
    ghost from_gives = { λ e answer. answer ≡ refused_as (refusal_of e) };

    fn from(e: Refusal) -> SheetAnswer {
        found::refused(match e {
            Refusal::NoRoom => 13,
            Refusal::ManyStates => 19,
            Refusal::ManyReadySets => 20,
        })
    }
}

// The service's sheet of `count` states over n names, at the front of the lent output: how many bytes it has; 13 if there is no room for
// it.
pub fn write_sheet(
    sizes: &[u8],
    ready: &[u16],
    next: &[u8],
    count: u8,
    n: u8,
    out: &mut [u8],
) -> Result<u16, Refusal>
    requires held { Held (record { sizes = sizes.now; ready = ready.now; next = next.now }) count }
    ensures answered { written_as refusal_of result out.new ≡ written out.old (good (sheet_bytes n 0 (states_in
        (record { sizes = sizes.entry.now; ready = ready.now; next = next.now }) count))) }
{
    let rows = rows_length(sizes, ready, count);
    let trailer = rows + 2 * (count as usize);
    if out.len() < trailer + 6 {
        return Err(Refusal::NoRoom);
    }
    put_rows(sizes, ready, next, count, out);
    put_index(sizes, ready, count, &mut out[rows..]);
    put_trailer(&mut out[trailer..], rows as u16, count, n);
    Ok((trailer + 6) as u16)
}
