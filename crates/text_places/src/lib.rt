// What is kept of the places that can be in a state, in tables of numbers: their ready sets, and the prefixes whose steps can be made from
// them. Request 7/13.
#![tactic(auto)]

ghost use Rattle.std.specs.Prelude.{◌≡◌, List, [], min, ℕ, ◌+◌, ◌-◌, ◌*◌, ◌≤◌, ◌<◌, length, get_or};
ghost use Rattle.place_sets.specs.PlaceSets.{number_of, set_at};
ghost use Rattle.text.specs.Places.{Sense};
ghost use Rattle.text.specs.Cells.{place_of, Explained};
ghost use Rattle.text.specs.Tables.{PlaceTables};
ghost use Rattle.text_ready.specs.Ready.{HeldAlways};
ghost use Rattle.text_places.specs.Filled.{Rooms};
ghost use Rattle.text_places.specs.Lent.{SameTables, KnownParts, WantingOf, FilledPlaceIn, FillingIn};

use place_sets::PlaceSet;
use text::Cell;

// Above all places: a link from here on leads to the body of a rec.
const PLACES: u16 = 256;

// With fewer recs no body is met often, so no family of a body is held.
const FEW: usize = 3;

// So many families of bodies are held at most.
const MOST: usize = 32;

// Numbers in a family.
const WORDS: usize = 256;

// ---- the places that can be in a state

// The place that a link leads to: itself, or the body of a rec.
pub fn place_of(bodies: &[u16], link: u16) -> u8
    requires { 256 ≤ link → (link < 256 + length bodies.now) × (get_or bodies.now (link - 256) 0 < 256) }
    ensures { result ≡ place_of [] bodies.now link }
{
    if link < PLACES {
        link as u8
    } else {
        bodies[(link - PLACES) as usize] as u8
    }
}

// The parts of a term: the cells of its places, and what leads to the bodies of its recs.
// That they are known is a clause of each function: what tells it is data, and a ghost field takes facts alone.
#[derive(Clone, Copy)]
struct Parts<'a> {
    cells: &'a [u32],
    bodies: &'a [u16],
}

impl Parts<'_> {
    // The first place and all that are directly behind prefixes. A choice leads to none.
    fn wanted(&self, first: u8) -> PlaceSet
        requires known { KnownParts self.now }
        requires inside { first < length self.now.cells.now }
        ensures { WantingOf self.now first (length self.now.cells.now) result.0 }
    {
        let mut wanted = PlaceSet::alone(first);
        for p in 1..self.cells.len() {
            if let Cell::Prefix { next, .. } = Cell::from(self.cells[p]) {
                place_sets::add_place(&mut wanted.0, place_of(self.bodies, next));
            }
        }
        wanted
    }
}

// ---- the tables

// What is kept of the places: how many ready sets each has, these, and its prefixes.
#[derive(Drop)]
struct Tables<'a> {
    sizes: &'a mut [u8],
    masks: &'a mut [u16],
    prefixes: &'a mut [u64],
}

impl Tables<'_> {
    // What is kept of one place.
    fn fill_place(&mut self, parts: &Parts, held: &[u64], p: usize)
        requires known { KnownParts parts.now }
        requires inside { p < length parts.now.cells.now }
        requires rooms { Rooms self.old.sizes.now self.old.masks.now self.old.prefixes.now }
        requires none { set_at self.old.prefixes.now p ≡ 0 }
        requires held { HeldAlways parts.now.cells.now parts.now.bodies.now held.now }
        ensures same { SameTables self.old self.new }
        ensures filled { FilledPlaceIn parts.now p self.old self.new }
    {
        let place = p as u16;
        let size = text_ready::put_ready(
            parts.cells,
            parts.bodies,
            held,
            place,
            &mut self.masks[8 * p..],
        );
        self.sizes[p] = size;
        text_steps::put_prefixes(
            parts.cells,
            parts.bodies,
            place,
            &mut self.prefixes[4 * p..4 * p + 4],
        );
    }

    // The same for every place of a set.
    fn fill_wanted(&mut self, parts: &Parts, held: &[u64], wanted: &PlaceSet)
        requires known { KnownParts parts.now }
        requires start { FillingIn parts.now wanted.now.0 0 self.old }
        requires held { HeldAlways parts.now.cells.now parts.now.bodies.now held.now }
        ensures same { SameTables self.old self.new }
        ensures filled { FillingIn parts.now wanted.now.0 (length parts.now.cells.now) self.new }
    {
        for p in 0..parts.cells.len() {
            if place_sets::has_place(&wanted.0, p as u8) {
                self.fill_place(parts, held, p);
            }
        }
    }

    // The same with the families of the bodies of the first recs, 32 at most.
    fn fill_held(&mut self, parts: &Parts, wanted: &PlaceSet)
        requires known { KnownParts parts.now }
        requires start { FillingIn parts.now wanted.now.0 0 self.old }
        ensures same { SameTables self.old self.new }
        ensures filled { FillingIn parts.now wanted.now.0 (length parts.now.cells.now) self.new }
    {
        let mut all = [0u64; MOST * WORDS];
        let n = parts.bodies.len().min(MOST);
        let held = &mut all[..WORDS * n];
        text_ready::hold_bodies(parts.cells, parts.bodies, held);
        self.fill_wanted(parts, held, wanted);
    }
}

// The places that can be in a state, and what is kept of each.
// Slices of numbers side by side: docs/ARCHITECTURE.md names this function, and a narrower type asks more.
pub fn fill_places(
    cells: &[u32],
    bodies: &[u16],
    first: u8,
    sizes: &mut [u8],
    masks: &mut [u16],
    prefixes: &mut [u64],
)
    requires { ((senses : List Sense) × Explained cells.now bodies.now senses) × (first < length cells.now)
        × (length bodies.now ≤ 64) × (length sizes.old ≡ 256) × (length masks.old ≡ 2048) × (length prefixes.old ≡ 1024)
        × ((i : ℕ) → get_or prefixes.old i 0 ≡ 0) }
    ensures { PlaceTables cells.now bodies.now first sizes.new masks.new
        prefixes.new }
{
    let parts = Parts { cells, bodies };
    let wanted = parts.wanted(first);
    let mut tables = Tables {
        sizes,
        masks,
        prefixes,
    };
    if bodies.len() < FEW {
        tables.fill_wanted(&parts, &[], &wanted);
    } else {
        tables.fill_held(&parts, &wanted);
    }
}
