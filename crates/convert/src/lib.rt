// Choosing sheets converted into ordinary sheets: the entry point. Request 1/13, "Sheets with hidden choices".
#![tactic(auto)]

ghost use Rattle.std.specs.Prelude.{◌≡◌};
ghost use Rattle.choosing.specs.Convert.{convert_into};
ghost use Rattle.convert.specs.Answer.{refusal_of};
ghost use Rattle.convert.specs.declared.Refusal.TheVariants.{States};
ghost use Rattle.nodes.specs.Answer.{written_as, written_by, refused_as};

mod sets;

use nodes::SheetAnswer;
use nodes::search::{Known, write_reached};
use sets::Rows;

// "1 to 32 rows".
const ROWS: usize = 32;

// Why a choosing sheet is not converted.
#[derive(Clone, Copy, Debug, PartialEq, Eq)]
enum Refusal {
    // 17: it has another form.
    OtherForm,
    // 18: internal moves lead from a row back to it.
    Circle,
    // 19, 20, 13: there is no sheet of its states.
    States(nodes::Refusal),
}

impl From<nodes::Refusal> for Refusal {
    ghost from_gives = { λ e r. r ≡ States e };

    fn from(e: nodes::Refusal) -> Refusal {
        Refusal::States(e)
    }
}

impl From<Refusal> for SheetAnswer {
    ghost from_gives = { λ e answer. answer ≡ refused_as (refusal_of e) };

    fn from(e: Refusal) -> SheetAnswer {
        match e {
            Refusal::OtherForm => nodes::found::refused(17),
            Refusal::Circle => nodes::found::refused(18),
            Refusal::States(e) => e.into(),
        }
    }
}

// The ordinary sheet that means the same as a choosing sheet, at the front of the lent output: how many bytes it has, or why there is none,
// which leaves the output untouched.
fn converted(choosing: &[u8], sheet: &mut [u8]) -> Result<u16, Refusal>
    ensures { written_as refusal_of result sheet.new ≡ convert_into choosing.now sheet.old }
{
    let mut hidden = [0u32; ROWS];
    let mut masks = [0u16; ROWS];
    let mut targets = [0u32; 14 * ROWS];
    if !choosing_rows::read_rows(choosing, &mut hidden, &mut masks, &mut targets) {
        return Err(Refusal::OtherForm);
    }
    let trailer = sheet::parts::read_trailer(choosing);
    let count = trailer.count as usize;
    choosing_sets::lead(&mut hidden, count);
    if choosing_sets::has_circle(&hidden, count) {
        return Err(Refusal::Circle);
    }
    let mut ranked = [0u16; ROWS];
    let mut holders = [0u32; ROWS];
    let known = choosing_sets::ready::rank(&masks, count, &mut ranked, &mut holders);
    let rows = Rows {
        leads: &hidden,
        ranked: &ranked[..known],
        holders: &holders[..known],
        targets: &targets,
        count,
    };
    let mut sets = Known::starting(1);
    Ok(write_reached(&rows, &mut sets, trailer.n, sheet)?)
}

// The same: the length of the sheet, or refusal 17, 18, 19, 20 or 13.
pub fn convert(choosing: &[u8], sheet: &mut [u8]) -> SheetAnswer
    ensures outcome { written_by result sheet.new ≡ convert_into choosing.now sheet.old }
{
    converted(choosing, sheet).into()
}
