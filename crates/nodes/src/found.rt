// What a converter answers once the states are found: too many, too wide, or the sheet. Requests 1/13, 7/13 and 10/13.
ghost use Rattle.std.specs.Prelude.{◌≡◌, List, ℕ, ◌≤◌, length, take, leb};
ghost use Rattle.std.proofs.Math.Option.{Option};
ghost use Rattle.std.specs.List.{list_all};
ghost use Rattle.nodes.specs.Answer.{written_as, refusal_of};
ghost use Rattle.nodes.specs.Filled.{FilledOr, found_into};

use crate::{Refusal, SheetAnswer, write_sheet};

// "more than 64 states" are too many.
const STATES: usize = 64;

// A refusal: it carries no sheet and no state, and nothing is written.
pub fn refused(number: u8) -> SheetAnswer
    ensures { result ≡ record { number = number; sheet = 0; state = 0; length = 0 } }
{
    SheetAnswer {
        number: number,
        sheet: 0,
        state: 0,
        length: 0,
    }
}

// Whether none of the first `known` states has more than 8 ready sets.
fn all_few(sizes: &[u8], known: usize) -> bool
    requires { known ≤ length sizes.now }
    ensures { result ≡ list_all (λ s. leb s 8) (take known sizes.now) }
{
    sizes[..known].iter().all(|&size| size <= 8)
}

// "19 more than 64 states, 20 more than 8 ready sets in a state, in that order", then the sheet of the states over n names, at the front of
// the lent output, and how many bytes it has, or 13.
pub fn write_found(
    sizes: &[u8],
    ready: &[u16],
    next: &[u8],
    known: usize,
    n: u8,
    out: &mut [u8],
) -> Result<u16, Refusal>
    requires { (length sizes.now ≡ 64) × (length ready.now ≡ 512) × (length next.now ≡ 896) }
    ensures { (leads : ℕ → ℕ → Option ℕ) (sets : ℕ → List ℕ) (start : ℕ) (nodes : List ℕ)
        → FilledOr leads sets start nodes known known
        (record { sizes = sizes.entry.now; ready = ready.now; next = next.now })
        → written_as refusal_of result out.new ≡ found_into leads sets start n out.old }
{
    if STATES < known {
        return Err(Refusal::ManyStates);
    }
    if !all_few(sizes, known) {
        return Err(Refusal::ManyReadySets);
    }
    write_sheet(sizes, ready, next, known as u8, n, out)
}
