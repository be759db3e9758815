// The ready sets of a place, told the cells of all places: a family of masks is joined with each part in turn. The families of the bodies
// of the first recs are made once and held: where one of these bodies is met, the family is joined with the one that is held. Request 7/13,
// "ready sets of + are all unions of one from each side".
#![tactic(auto)]

ghost use Rattle.std.specs.Prelude.{◌≡◌, ◌==◌, ℕ, ◌+◌, ◌*◌, ◌%◌, ◌≤◌, ◌<◌, MatchOption, length, get_or, take, drop};
ghost use Rattle.std.specs.Int.Bits.{bit_and};
ghost use Rattle.std.specs.List.{position};
ghost use Rattle.text.specs.Cells.{Ends, unpacked};
ghost use Rattle.text_ready.specs.Ready.{HeldAlways, HeldMore, PlaceReady};

use text::{Cell, Link};

// Numbers in a family.
const WORDS: usize = 256;

// A set of masks, as its numbers.
type Family = [u64; WORDS];

// ---- joining

// The parts of a term: the cells of its places, what leads to the bodies of its recs, and the families of the first bodies, which are held.
#[derive(Clone, Copy)]
struct Parts<'a> {
    cells: &'a [u32],
    bodies: &'a [u16],
    held: &'a [u64],
    ghost few_places: { length cells.now ≤ 256 },
    ghost few_recs: { length bodies.now ≤ 64 },
}

impl Parts<'_> {
    ghost use Rattle.text_ready.specs.Parts.{Leads, Chooses, Joins, Adds, Readies};

    // What an internal choice leads to, if that is what a link leads to.
    fn inner_at(&self, link: u16) -> Option<(u16, u16)>
        requires { (bound : ℕ) × Leads self.now bound link }
        ensures { MatchOption result (Chooses self.now link → ⊥) (λ both. Chooses self.now link
            × (both.0 ≡ (unpacked (get_or self.now.cells.now link 0)).left)
            × (both.1 ≡ (unpacked (get_or self.now.cells.now link 0)).right % 512)) }
    {
        let Link::Place(p) = Link::from(link) else {
            return None;
        };
        match Cell::from(self.cells[p]) {
            Cell::Inner { left, right } => Some((left, right)),
            _ => None,
        }
    }

    // The family of the body of a rec, if it is held.
    fn held_body(&self, r: usize) -> Option<&[u64]>
        ensures { MatchOption result (length self.now.held.now < 256 * (r + 1)) (λ family.
            (256 * (r + 1) ≤ length self.now.held.now) × (family.now ≡ take 256 (drop (256 * r) self.now.held.now))) }
    {
        if r < self.held.len() / WORDS {
            Some(&self.held[WORDS * r..WORDS * r + WORDS])
        } else {
            None
        }
    }

    // The body of a rec joined with a family: at once, if the family of the body is held.
    #[cycle(joining)]
    fn join_rec(&self, r: usize, family: &mut Family, recs: u64) -> u64
        requires { Leads self.now (r + 1) (256 + r) }
        ensures { Joins self.now (256 + r) recs family.old family.new result }
    {
        if let Some(body) = self.held_body(r) {
            families::join(family, body);
            return recs;
        }
        self.join(self.bodies[r], r, family, recs)
    }

    // The same, unless it is known to change nothing. Notes if it changed nothing.
    #[cycle(joining)]
    fn join_body(&self, r: usize, family: &mut Family, recs: u64) -> u64
        requires { Leads self.now (r + 1) (256 + r) }
        ensures { Joins self.now (256 + r) recs family.old family.new result }
    {
        if bits::has(recs, r) {
            return recs;
        }
        let before = *family;
        let then = self.join_rec(r, family, recs);
        if families::same(&before, family) {
            then | (1 << r)
        } else {
            then
        }
    }

    // What a link leads to, joined with the family at the start and put into one family with the other parts of an internal choice.
    #[cycle(joining)]
    fn add_part(&self, link: u16, bound: usize, start: &Family, recs: u64, all: &mut Family) -> u64
        requires { Leads self.now bound link }
        ensures { (kept : ℕ) → Adds self.now link recs start.now all.old all.new kept (bit_and kept result) }
    {
        let mut part = *start;
        let then = self.join(link, bound, &mut part, recs);
        families::unite(all, &part);
        then
    }

    // An internal choice joined with a family: each of its parts with what the family was. A chain of choices to the left is gone along.
    #[cycle(joining)]
    fn join_choice(&self, place: u16, bound: usize, family: &mut Family, recs: u64) -> u64
        requires { Leads self.now bound place × Chooses self.now place }
        ensures { Joins self.now place recs family.old family.new result }
    {
        let start = *family;
        let mut all = [0; WORDS];
        let mut kept = u64::MAX;
        let mut at = place;
        while let Some((left, right)) = self.inner_at(at) {
            kept &= self.add_part(right, bound, &start, recs, &mut all);
            at = left;
        }
        let last = self.add_part(at, bound, &start, recs, &mut all);
        *family = all;
        kept & last
    }

    // A family joined with what a link leads to. Answers which recs' bodies would change nothing any more, a bit for each rec.
    #[cycle(joining)]
    fn join(&self, link: u16, bound: usize, family: &mut Family, recs: u64) -> u64
        requires { Leads self.now bound link }
        ensures { Joins self.now link recs family.old family.new result }
    {
        let p = match Link::from(link) {
            Link::End => return recs,
            Link::Body(r) => return self.join_body(r, family, recs),
            Link::Place(p) => p,
        };
        match Cell::from(self.cells[p]) {
            Cell::Prefix { action, .. } => {
                families::gain(family, action);
                recs
            }
            Cell::Inner { .. } => self.join_choice(link, bound, family, recs),
            Cell::Plus { left, right } => {
                let then = self.join(left, bound, family, recs);
                self.join(right, bound, family, then)
            }
        }
    }

    // The ready sets of a place, by joining its parts.
    fn join_ready(&self, place: u16, out: &mut [u16]) -> u8
        requires { (8 ≤ length out.old) × (place < 256)
            × Leads self.now (length self.now.bodies.now) place }
        ensures { Readies self.now place out.old result out.new }
    {
        let mut family = [0; WORDS];
        families::only_empty(&mut family);
        self.join(place, self.bodies.len(), &mut family, 0);
        families::masks(&family, out)
    }
}

// ---- the bodies of the first recs

// The family of the body of rec r, put behind those of the recs before it.
fn hold_body(cells: &[u32], bodies: &[u16], r: usize, held: &mut [u64])
    requires { (length bodies.now ≤ 64) × (length cells.now ≤ 256) × (256 * (r + 1) ≤ length held.old) × (r < length bodies.now)
        × Ends cells.now bodies.now r (get_or bodies.now r 0) }
    ensures { HeldMore cells.now bodies.now r held.old held.new }
{
    let mut family = [0; WORDS];
    families::only_empty(&mut family);
    let parts = Parts {
        cells,
        bodies,
        held: &held[..WORDS * r],
    };
    parts.join(bodies[r], r, &mut family, 0);
    families::copy(&family, &mut held[WORDS * r..WORDS * r + WORDS]);
}

// The families of the bodies of the first recs, as many as there is room for. A body leads only to recs before its own.
pub fn hold_bodies(cells: &[u32], bodies: &[u16], held: &mut [u64])
    requires { (length bodies.now ≤ 64) × (length cells.now ≤ 256) × (length held.old ≤ 256 * length bodies.now)
        × ((r : ℕ) → r < length bodies.now → Ends cells.now bodies.now r (get_or bodies.now r 0)) }
    ensures { (length held.new ≡ length held.old)
        × HeldAlways cells.now bodies.now held.new }
{
    for r in 0..held.len() / WORDS {
        hold_body(cells, bodies, r, held);
    }
}

// ---- the ready sets of a place

// The first rec whose body is at a place, if there is one.
fn body_at(bodies: &[u16], place: u16) -> Option<usize>
    ensures { result ≡ position (λ body. body == place) bodies.now }
{
    bodies.iter().position(|body| *body == place)
}

// The ready sets of a place, ascending, eight of them at most: those that are held if it is a body. Gives how many there are, 9 if more
// than eight.
// A count, as it stands in a table until all states are found: 19 is told before 20.
pub fn put_ready(cells: &[u32], bodies: &[u16], held: &[u64], place: u16, out: &mut [u16]) -> u8
    requires { (length bodies.now ≤ 64) × (length cells.now ≤ 256) × (8 ≤ length out.old) × (place < 256)
        × Ends cells.now bodies.now (length bodies.now) place }
    ensures { PlaceReady cells.now bodies.now held.now place out.old result out.new }
{
    let parts = Parts {
        cells,
        bodies,
        held,
    };
    if let Some(r) = body_at(bodies, place) {
        if let Some(family) = parts.held_body(r) {
            return families::masks(family, out);
        }
    }
    parts.join_ready(place, out)
}
