// Connecting two sheets: the answer, the plan, and the work table afterwards. Document 01, "Which pairs connect" and "Refusals and
// their order".
#![tactic(auto)]

ghost use Rattle.std.specs.Prelude.{◌≡◌, ◌≤◌, ◌<◌, length};
ghost use Rattle.model.specs.Test.{paper};
ghost use Rattle.model.specs.Connect.{limit_of, connect_of};
ghost use Rattle.sheet.specs.Whole.{IsSheet};
ghost use Rattle.moves.specs.Modes.{mode_of};
ghost use Rattle.table.specs.Records.{blank};
ghost use Rattle.table.specs.States.{SearchedTable};
ghost use Rattle.numbering.specs.Table.{UnnumberedTable};
ghost use Rattle.connect.specs.declared.NoPlan.TheVariants.{Pair, Capacity};
ghost use Rattle.connect.specs.Answers.{answer_of, refusing, counting, answer_for, answer_with, Writes, Admits};
ghost use Rattle.connect.specs.Related.{connected_by, related_by, emitted_by};

// What connecting answers: number, sheet and state of a refusal, and the offset of the byte at fault; situations, plan states and rounds;
// the plan's length.
#[repr(C)]
#[derive(Clone, Copy)]
pub struct Answer {
    pub number: u8,
    pub sheet: u8,
    pub state: u8,
    pub offset: u16,
    pub situations: u16,
    pub states: u16,
    pub rounds: u16,
    pub length: u32,
}

// Why there is no plan: the two sheets cannot be used together; k is above 3; more situations are reached than there are records, or 4,096;
// the start is removed; the plan is longer than the lent one. For the last two there are counts.
#[derive(Clone, Copy, Debug, PartialEq, Eq)]
enum NoPlan {
    Pair(pair::Refusal),
    Rank,
    Capacity,
    NoAdapter {
        situations: u16,
        rounds: u16,
    },
    Room {
        situations: u16,
        states: u16,
        rounds: u16,
    },
}

// The counts of a plan that is written: situations, its states, rounds, and its length.
#[derive(Clone, Copy, Debug, PartialEq, Eq)]
struct Accepted {
    situations: u16,
    states: u16,
    rounds: u16,
    length: u32,
}

// What is to be connected: two sheets, with buffers of rank k, in a mode.
#[derive(Clone, Copy)]
struct Wanted<'a> {
    mode: moves::Mode,
    k: u8,
    old: &'a [u8],
    new: &'a [u8],
}

impl From<pair::Refusal> for NoPlan {
    ghost from_gives = { λ refusal why. why ≡ Pair refusal };

    fn from(refusal: pair::Refusal) -> NoPlan {
        NoPlan::Pair(refusal)
    }
}

impl From<reached::Full> for NoPlan {
    ghost from_gives = { λ _ why. why ≡ Capacity };

    fn from(_full: reached::Full) -> NoPlan {
        NoPlan::Capacity
    }
}

// A refusal before situations are counted, or for their number: the counts are 0 0 0.
pub fn refusal(number: u8, sheet: u8, state: u8, offset: u16) -> Answer
    ensures { answer_of result ≡ refusing number sheet state offset }
{
    Answer {
        number,
        sheet,
        state,
        offset,
        situations: 0,
        states: 0,
        rounds: 0,
        length: 0,
    }
}

// An answer with its counts.
fn with_counts(number: u8, situations: u16, states: u16, rounds: u16, length: u32) -> Answer
    ensures { answer_of result ≡ counting number situations states rounds length }
{
    Answer {
        number,
        sheet: 0,
        state: 0,
        offset: 0,
        situations,
        states,
        rounds,
        length,
    }
}

impl From<Accepted> for Answer {
    ghost from_gives = { λ accepted answer. answer_of answer ≡ answer_with accepted };

    fn from(accepted: Accepted) -> Answer {
        with_counts(
            0,
            accepted.situations,
            accepted.states,
            accepted.rounds,
            accepted.length,
        )
    }
}

impl From<NoPlan> for Answer {
    ghost from_gives = { λ why answer. answer_of answer ≡ answer_for why };

    fn from(why: NoPlan) -> Answer {
        match why {
            NoPlan::Pair(pair) => {
                refusal(pair.number(), pair.sheet(), pair.state(), pair.offset())
            }
            NoPlan::Rank => refusal(10, 0, 0, 0),
            NoPlan::Capacity => refusal(11, 0, 0, 0),
            NoPlan::NoAdapter { situations, rounds } => with_counts(12, situations, 0, rounds, 0),
            NoPlan::Room {
                situations,
                states,
                rounds,
            } => with_counts(13, situations, states, rounds, 0),
        }
    }
}

// How many situations can be counted in so many records.
pub fn limit_of(records: usize) -> usize
    ensures { result ≡ limit_of records }
{
    records.min(keys::MOST)
}

impl Wanted<'_> {
    // The refusal of the sheets, of the pair or of k, if there is one.
    fn checked(&self) -> Result<(), NoPlan>
        ensures admits { Admits self.now.k self.now.old.now self.now.new.now result }
    {
        pair::check_pair(0, 0, self.old, self.new)?;
        if 3 < self.k {
            return Err(NoPlan::Rank);
        }
        Ok(())
    }

    // The plan written and accepted, if there is room for it: `count` situations with their links and the masks of their kept moves, those
    // that stay unmarked, the first among them.
    fn emit(
        &self,
        work: &mut [table::Record],
        plan: &mut [u8],
        count: usize,
        rounds: u16,
    ) -> Result<Accepted, NoPlan>
        requires old_sheet { IsSheet self.now.old.now }
        requires unnumbered { UnnumberedTable count work.old }
        ensures written { Writes (emitted_by self.now count rounds work.old (length plan.old)) result plan.old plan.new }
    {
        let situations = count as u16;
        let states = numbering::number_states(work, count);
        let length = numbering::plan_length(work, count, states);
        if plan.len() < length as usize {
            return Err(NoPlan::Room {
                situations,
                states,
                rounds,
            });
        }
        let n = sheet::name_count(self.old);
        numbering::write_plan(work, count, states, n, self.k, plan);
        Ok(Accepted {
            situations,
            states,
            rounds,
            length,
        })
    }

    // What follows the search: the rounds, for `count` situations as the search leaves them, and the plan, unless the start is removed.
    fn relate(
        &self,
        work: &mut [table::Record],
        plan: &mut [u8],
        count: usize,
    ) -> Result<Accepted, NoPlan>
        requires searched { SearchedTable self.now.old.now self.now.new.now count work.old }
        requires some_situation { 0 < count }
        ensures written { Writes (related_by self.now count work.old (length plan.old)) result plan.old plan.new }
    {
        let rounds = rounds::sift(self.mode, self.old, self.new, work, count);
        if table::load(work, 0).mark != 0 {
            return Err(NoPlan::NoAdapter {
                situations: count as u16,
                rounds,
            });
        }
        self.emit(work, plan, count, rounds)
    }

    // What follows for two service sheets over the same names, and k at most 3: the search, and the rest if its situations are few enough.
    fn connect_checked(
        &self,
        work: &mut [table::Record],
        plan: &mut [u8],
    ) -> Result<Accepted, NoPlan>
        requires old_sheet { IsSheet self.now.old.now }
        requires new_sheet { IsSheet self.now.new.now }
        requires rank { self.now.k ≤ 3 }
        ensures written { Writes (connected_by self.now (length work.old) (length plan.old)) result plan.old plan.new }
    {
        let limit = limit_of(work.len());
        let count = reached::explore(self.old, self.new, self.k, limit, work)?;
        self.relate(work, plan, usize::from(count))
    }
}

// Connects the contracts of two sheets with buffers of rank k, in a mode.
pub fn connect_mode(
    mode: moves::Mode,
    k: u8,
    old: &[u8],
    new: &[u8],
    work: &mut [table::Record],
    plan: &mut [u8],
) -> Answer
    ensures outcome { record { answer = answer_of result; plan = plan.new; work = work.new }
        ≡ connect_of blank (mode_of mode) k old.now new.now work.old plan.old }
{
    let wanted = Wanted { mode, k, old, new };
    if let Err(why) = wanted.checked() {
        return Answer::from(why);
    }
    let found = wanted.connect_checked(work, plan);
    table::clear(work);
    match found {
        Ok(accepted) => Answer::from(accepted),
        Err(why) => Answer::from(why),
    }
}

// The same without a mode: the paper's.
pub fn connect(k: u8, old: &[u8], new: &[u8], work: &mut [table::Record], plan: &mut [u8]) -> Answer
    ensures outcome { record { answer = answer_of result; plan = plan.new; work = work.new }
        ≡ connect_of blank paper k old.now new.now work.old plan.old }
{
    connect_mode(moves::Mode::Paper, k, old, new, work, plan)
}
