// Contracts typed as text, converted into ordinary sheets: the entry points. Request 7/13, "Contracts typed as text".
#![tactic(auto)]

ghost use Rattle.std.specs.Prelude.{◌≡◌, List, ℕ, ◌≤◌, length, get_or, MatchResult};
ghost use Rattle.nodes.specs.Answer.{written_by, written_as, refused_as};
ghost use Rattle.nodes.specs.Answer.{refusal_of as states_refused};
ghost use Rattle.text.specs.Convert.{text_into, text_fault_of};
ghost use Rattle.text_sheet.specs.declared.Refusal.TheVariants.{NoText, NoSheet};
ghost use Rattle.text_sheet.specs.Refusals.{refusal_of, Refuses, TermRead};

use nodes::SheetAnswer;
use nodes::found::refused;
use nodes::search::Known;
use text_reading::Stopped;
use text_states::Text;

// "256 bytes in all".
const LONGEST: usize = 256;

// Cells at most: that of the end, and one for each byte.
const CELLS: usize = 257;

// Recs at most; each has five bytes.
const RECS: usize = 64;

// ---- refusals

// Why there is no sheet of a text. Bytes are counted without blanks.
#[derive(Clone, Copy, Debug, PartialEq, Eq)]
enum Refusal {
    // 1, with sheet 1: it has more than 256 bytes.
    TooLong,
    // 22: no derivation can go on at this byte.
    NoText { at: usize },
    // 23: the variable at this byte is at fault.
    AtFault { at: usize },
    // 19, 20 or 13: there is no sheet of its states.
    NoSheet(nodes::Refusal),
}

impl From<Stopped> for Refusal {
    ghost from_gives = { λ stopped e. e ≡ NoText stopped.at };

    fn from(stopped: Stopped) -> Refusal {
        Refusal::NoText { at: stopped.at }
    }
}

impl From<nodes::Refusal> for Refusal {
    ghost from_gives = { λ why e. e ≡ NoSheet why };

    fn from(why: nodes::Refusal) -> Refusal {
        Refusal::NoSheet(why)
    }
}

impl From<Refusal> for SheetAnswer {
    ghost from_gives = { λ e answer. answer ≡ refused_as (refusal_of e) };

    fn from(e: Refusal) -> SheetAnswer {
        match e {
            Refusal::TooLong => SheetAnswer {
                number: 1,
                sheet: 1,
                state: 0,
                length: 0,
            },
            Refusal::NoText { .. } => refused(22),
            Refusal::AtFault { .. } => refused(23),
            Refusal::NoSheet(why) => why.into(),
        }
    }
}

// ---- reading

// A text that was read, with no variable at fault: the cells of its places, that of the end first, what leads to the bodies of its recs,
// and its first place.
#[derive(Clone, Copy)]
struct Term {
    cells: [u32; CELLS],
    bodies: [u16; RECS],
    places: usize,
    recs: usize,
    first: u8,
}

impl Term {
    // No text yet.
    fn none() -> Term
        ensures { get_or result.cells 0 0 ≡ 0 }
    {
        Term {
            cells: [0; CELLS],
            bodies: [0; RECS],
            places: 0,
            recs: 0,
            first: 0,
        }
    }
}

// A text that is not too long read into a term, blanks dropped, or refusal 22 or 23. The term is lent, as it would be copied where it is
// an answer.
fn read_term(text: &[u8], term: &mut Term) -> Result<(), Refusal>
    requires short { length text.now ≤ 256 }
    requires none { get_or term.old.cells 0 0 ≡ 0 }
    ensures { MatchResult result (λ _. TermRead text.now term.new) (Refuses text.now) }
{
    let mut bytes = [0u8; LONGEST];
    let count = text_reading::strip(text, &mut bytes);
    let read = text_reading::read_text(&bytes[..count], &mut term.cells, &mut term.bodies)?;
    if let Some(at) = read.wrong {
        return Err(Refusal::AtFault {
            at: usize::from(at),
        });
    }
    let first = text_places::place_of(&term.bodies[..read.recs], read.link);
    term.places = read.places;
    term.recs = read.recs;
    term.first = first;
    Ok(())
}

// ---- converting

// The sheet of the states of a term, over seven names, at the front of the lent output, and how many bytes it has; or refusal 19, 20 or 13.
fn write_states(term: &Term, sheet: &mut [u8]) -> Result<u16, nodes::Refusal>
    requires { (text : List ℕ) × TermRead text term.now }
    ensures { (text : List ℕ) → TermRead text term.now → written_as states_refused result sheet.new ≡ text_into text sheet.old }
{
    let cells = &term.cells[..1 + term.places];
    let bodies = &term.bodies[..term.recs];
    let first = term.first;
    let mut sizes = [0u8; 256];
    let mut masks = [0u16; 2048];
    let mut prefixes = [0u64; 1024];
    text_places::fill_places(cells, bodies, first, &mut sizes, &mut masks, &mut prefixes);
    let text = Text {
        cells,
        bodies,
        first,
        sizes: &sizes,
        masks: &masks,
        prefixes: &prefixes,
    };
    let mut known = Known::starting(text.start());
    nodes::search::write_reached(&text, &mut known, 7, sheet)
}

// The ordinary sheet that means what a text says, at the front of the lent output, and how many bytes it has; or why there is none.
fn convert(text: &[u8], sheet: &mut [u8]) -> Result<u16, Refusal>
    ensures { written_as refusal_of result sheet.new ≡ text_into text.now sheet.old }
{
    if LONGEST < text.len() {
        return Err(Refusal::TooLong);
    }
    let mut term = Term::none();
    read_term(text, &mut term)?;
    Ok(write_states(&term, sheet)?)
}

// The ordinary sheet that means what a text says, at the front of the lent output: its length, or refusal 1, 22, 23, 19, 20 or 13, which
// leaves the output untouched.
pub fn from_text(text: &[u8], sheet: &mut [u8]) -> SheetAnswer
    ensures outcome { written_by result sheet.new ≡ text_into text.now sheet.old }
{
    SheetAnswer::from(convert(text, sheet))
}

// For a text that is refused as 22 the byte, blanks counted, at which no derivation can go on; for 23 the first variable at fault; else 0.
pub fn text_fault(text: &[u8]) -> u16
    ensures { result ≡ text_fault_of text.now }
{
    if LONGEST < text.len() {
        return 0;
    }
    let mut term = Term::none();
    match read_term(text, &mut term) {
        Ok(()) => 0,
        Err(refusal) => match refusal {
            Refusal::NoText { at } | Refusal::AtFault { at } => {
                text_reading::place_of_byte(text, at) as u16
            }
            Refusal::TooLong | Refusal::NoSheet(_) => 0,
        },
    }
}
