// Contracts typed as text, read by recursive descent into cells: the depth that is left falls at each call of its own, and a chain of + or
// of (+) is a loop. Request 7/13.
#![tactic(auto)]

ghost use Rattle.std.specs.Prelude.{◌≡◌, [], ◌∷◌, ◌+◌, ◌≤◌, ◌<◌, length, take, drop, slice_get, MatchResult};
ghost use Rattle.text.specs.Grammar.{variable};
ghost use Rattle.text.specs.Parser.{leaf, acted, bracketed, looped, expects};
ghost use Rattle.text.specs.Convert.{wrong_at, action_width, dropped, place_of_byte};
ghost use Rattle.text_reading.specs.Reading.{tight_in, sums_in, whole_in, listed, prefixed_scope, fault_in, left_by, InRec, TextRead};
ghost use Rattle.text_reading.specs.Reader.{standing, before, InText, ByteIn, NoneIn, RecHead, Put, IsReady, Leaves};

// What was read up to a byte: what leads to it, how many places and recs were found, and the first variable at fault.
#[derive(Clone, Copy)]
pub struct Read {
    pub at: usize,
    pub link: u16,
    pub places: usize,
    pub recs: usize,
    pub wrong: Option<u8>,
}

// No derivation can go on at this byte.
#[derive(Clone, Copy, Debug, PartialEq, Eq)]
pub struct Stopped {
    pub at: usize,
}

// The variables at a place: those with a rec, those with a prefix between their rec and here, each as a bit; and the recs' numbers.
#[derive(Clone, Copy)]
struct Scope {
    recs: u8,
    prefixed: u8,
    owners: [u8; 3],
}

// A text that is read, and where reading stands: the byte; the cells and the bodies of recs, with how many were found; and the first
// variable at fault.
#[derive(Drop)]
struct Reader<'a> {
    text: &'a [u8],
    at: usize,
    cells: &'a mut [u32],
    places: usize,
    bodies: &'a mut [u16],
    recs: usize,
    wrong: Option<u8>,
}

impl Scope {
    // The variables behind a prefix: all that have a rec have a prefix since.
    fn behind_prefix(self) -> Scope
        ensures { result ≡ prefixed_scope self }
    {
        Scope {
            prefixed: self.recs,
            ..self
        }
    }

    // The variables in a rec of a variable, with its number.
    fn in_rec(mut self, v: u8, number: u8) -> Scope
        requires { v < 3 }
        ensures { InRec self v number result }
    {
        let bit: u8 = 1 << v;
        self.owners[usize::from(v)] = number;
        self.recs |= bit;
        self.prefixed &= 7 - bit;
        self
    }

    // A variable is at fault at a byte if it has no prefix between its rec and here.
    fn fault_at(self, at: usize, v: u8) -> Option<u8>
        requires { (v < 3) × (at < 256) }
        ensures { fault_in result ≡ wrong_at (listed self.recs) (listed self.prefixed) at (variable v) }
    {
        if bits::has(self.prefixed, v as usize) {
            None
        } else {
            Some(at as u8)
        }
    }
}

impl Reader<'_> {
    // The byte so many places ahead.
    fn byte(&self, ahead: usize) -> Option<u8>
        requires { InText self.now × (ahead ≤ 4) }
        ensures { result ≡ slice_get self.now.text.now (self.now.at + ahead) }
    {
        self.text.get(self.at + ahead).copied()
    }

    // A byte that must come there.
    fn expect(&self, ahead: usize, b: u8) -> Result<(), Stopped>
        requires { InText self.now × (ahead ≤ 4) }
        ensures { MatchResult result (λ _. slice_get self.now.text.now (self.now.at + ahead) ≡ Some b)
            (λ e. (e.at ≡ self.now.at + ahead) × (slice_get self.now.text.now (self.now.at + ahead) ≡ Some b → ⊥)) }
    {
        if self.byte(ahead) == Some(b) {
            Ok(())
        } else {
            Err(Stopped {
                at: self.at + ahead,
            })
        }
    }

    // One of the letters from `low` to `high`, as its number among them.
    fn letter(&self, ahead: usize, low: u8, high: u8) -> Result<u8, Stopped>
        requires { InText self.now × (ahead ≤ 4) }
        ensures { MatchResult result (ByteIn self.now.text.now (self.now.at + ahead) low high)
            (λ e. (e.at ≡ self.now.at + ahead) × NoneIn self.now.text.now (self.now.at + ahead) low high) }
    {
        match self.byte(ahead) {
            Some(b) if (low..=high).contains(&b) => Ok(b - low),
            _ => Err(Stopped {
                at: self.at + ahead,
            }),
        }
    }

    // Behind the r of a rec: ec, a variable and a dot. Gives the variable.
    fn rec_head(&self) -> Result<u8, Stopped>
        requires { (self.now.at < length self.now.text.now) × (length self.now.text.now ≤ 256) }
        ensures { RecHead self.now.text.now self.now.at result }
    {
        self.expect(1, b'e')?;
        self.expect(2, b'c')?;
        let v = self.letter(3, b'X', b'Z')?;
        self.expect(4, b'.')?;
        Ok(v)
    }

    // With no depth left: 0 or a variable.
    fn leaf(&mut self, scope: Scope) -> Result<u16, Stopped>
        requires { IsReady self.old (standing self.old 0) scope }
        ensures { Leaves self.old (standing self.old 0) scope (leaf (drop self.old.at self.old.text.now)) result self.new }
    {
        if self.byte(0) == Some(b'0') {
            self.at += 1;
            return Ok(0);
        }
        let v = self.letter(0, b'X', b'Z')?;
        self.wrong = self.wrong.or(scope.fault_at(self.at, v));
        self.at += 1;
        Ok(256 + u16::from(scope.owners[usize::from(v)]))
    }

    // A cell behind the others, and what leads to it.
    fn put_cell(&mut self, kind: u8, left: u16, right: u16) -> u16
        requires { (self.old.places < 256) × (length self.old.cells.now ≡ 257) }
        ensures { Put self.old kind left right result self.new }
    {
        self.places += 1;
        self.cells[self.places] = u32::from(kind) + 16 * u32::from(left) + 8192 * u32::from(right);
        self.places as u16
    }

    // Behind an action: a dot and a part, or the end.
    #[cycle(grammar)]
    fn behind(&mut self, action: u8, depth: usize, scope: Scope) -> Result<u16, Stopped>
        requires { IsReady self.old (before action self.old) scope × (action_width action ≤ self.old.at)
            × (self.old.at ≤ length self.old.text.now) }
        ensures { Leaves self.old (before action self.old) scope
            (acted (tight_in self.old.text.now depth) (whole_in self.old.text.now depth) action (drop self.old.at self.old.text.now))
            result self.new }
    {
        if self.byte(0) != Some(b'.') {
            return Ok(self.put_cell(action, 0, 0));
        }
        self.at += 1;
        let part = self.tight(depth, scope.behind_prefix())?;
        Ok(self.put_cell(action, part, 0))
    }

    // At (: a whole part behind it, and ).
    #[cycle(grammar)]
    fn bracket(&mut self, depth: usize, scope: Scope) -> Result<u16, Stopped>
        requires { IsReady self.old (standing self.old 0) scope × (self.old.at < length self.old.text.now) }
        ensures { Leaves self.old (standing self.old 0) scope
            (bracketed (tight_in self.old.text.now depth) (whole_in self.old.text.now depth)
            (drop (self.old.at + 1) self.old.text.now))
            result self.new }
    {
        self.at += 1;
        let part = self.whole(depth, scope)?;
        self.expect(0, b')')?;
        self.at += 1;
        Ok(part)
    }

    // At r: ec behind it, a variable, a dot, and the body.
    #[cycle(grammar)]
    fn rec(&mut self, depth: usize, scope: Scope) -> Result<u16, Stopped>
        requires { IsReady self.old (standing self.old 0) scope × (self.old.at < length self.old.text.now) }
        ensures { Leaves self.old (standing self.old 0) scope
            (expects (101 ∷ 99 ∷ []) (looped (tight_in self.old.text.now depth) (whole_in self.old.text.now depth))
            (drop (self.old.at + 1) self.old.text.now))
            result self.new }
    {
        let v = self.rec_head()?;
        let number = self.recs;
        self.at += 5;
        self.recs += 1;
        let body = self.tight(depth, scope.in_rec(v, number as u8))?;
        self.bodies[number] = body;
        Ok(body)
    }

    // tight ::= 0 | variable | action | action . tight | rec variable . tight | ( whole )
    #[cycle(grammar)]
    fn tight(&mut self, depth: usize, scope: Scope) -> Result<u16, Stopped>
        requires { IsReady self.old (standing self.old 0) scope }
        ensures { Leaves self.old (standing self.old 0) scope
            (tight_in self.old.text.now depth (drop self.old.at self.old.text.now)) result self.new }
    {
        if depth == 0 {
            return self.leaf(scope);
        }
        match self.byte(0) {
            Some(b @ b'a'..=b'g') => {
                self.at += 1;
                self.behind(b - b'a', depth - 1, scope)
            }
            Some(b'!') => {
                let name = self.letter(1, b'a', b'g')?;
                self.at += 2;
                self.behind(7 + name, depth - 1, scope)
            }
            Some(b'(') => self.bracket(depth - 1, scope),
            Some(b'r') => self.rec(depth - 1, scope),
            _ => self.leaf(scope),
        }
    }

    // sums ::= tight | sums + tight
    #[cycle(grammar)]
    fn sums(&mut self, depth: usize, scope: Scope) -> Result<u16, Stopped>
        requires { IsReady self.old (standing self.old 0) scope }
        ensures { Leaves self.old (standing self.old 0) scope
            (sums_in self.old.text.now depth (drop self.old.at self.old.text.now)) result self.new }
    {
        let mut part = self.tight(depth, scope)?;
        while self.byte(0) == Some(b'+') {
            self.at += 1;
            let next = self.tight(depth, scope)?;
            part = self.put_cell(14, part, next);
        }
        Ok(part)
    }

    // whole ::= sums | whole (+) sums
    // Not one function with sums: each is a rule of the grammar, and sign, item and kind are most of it.
    #[cycle(grammar)]
    fn whole(&mut self, depth: usize, scope: Scope) -> Result<u16, Stopped>
        requires { IsReady self.old (standing self.old 0) scope }
        ensures { Leaves self.old (standing self.old 0) scope
            (whole_in self.old.text.now depth (drop self.old.at self.old.text.now)) result self.new }
    {
        let mut part = self.sums(depth, scope)?;
        while self.byte(0) == Some(b'(') {
            self.expect(1, b'+')?;
            self.expect(2, b')')?;
            self.at += 3;
            let next = self.sums(depth, scope)?;
            part = self.put_cell(15, part, next);
        }
        Ok(part)
    }
}

// The text without its blanks, and how many bytes that has.
pub fn strip(text: &[u8], out: &mut [u8]) -> usize
    requires { (length text.now ≤ 256) × (length out.old ≡ 256) }
    ensures { (take result out.new ≡ dropped text.now) × (result ≡ length (dropped text.now)) }
{
    let mut count = 0;
    for &b in text {
        if b == b' ' {
            continue;
        }
        out[count] = b;
        count += 1;
    }
    count
}

// Where the byte with a number among those that are no blanks stands; the length if there is none.
pub fn place_of_byte(text: &[u8], i: usize) -> usize
    ensures { result ≡ place_of_byte text.now i }
{
    let mut left = i;
    for (at, b) in text.iter().enumerate() {
        if *b == b' ' {
            continue;
        }
        if left == 0 {
            return at;
        }
        left -= 1;
    }
    text.len()
}

// A text without blanks, read into cells and bodies of recs, at most 16 deep.
pub fn read_text(text: &[u8], cells: &mut [u32], bodies: &mut [u16]) -> Result<Read, Stopped>
    requires { (length text.now ≤ 256) × (length cells.old ≡ 257) × (length bodies.old ≡ 64) }
    ensures { TextRead text.now cells.old (left_by result) cells.new bodies.new }
{
    let mut reader = Reader {
        text,
        at: 0,
        cells,
        places: 0,
        bodies,
        recs: 0,
        wrong: None,
    };
    let scope = Scope {
        recs: 0,
        prefixed: 0,
        owners: [0, 0, 0],
    };
    let link = reader.whole(16, scope)?;
    if reader.at < text.len() {
        return Err(Stopped { at: reader.at });
    }
    Ok(Read {
        at: reader.at,
        link,
        places: reader.places,
        recs: reader.recs,
        wrong: reader.wrong,
    })
}
