// Two sheets in their places: refusals 1 to 9. Document 01, "Refusals and their order".
#![tactic(auto)]

ghost use Rattle.std.specs.Prelude.{◌≡◌};
ghost use Rattle.model.specs.Sheet.{read_sheet, in_place, read_both};
ghost use Rattle.sheet.specs.Answers.{reading_of, whole};
ghost use Rattle.pair.specs.Pairs.{refusal_of};

use sheet::Fault;

// Why two sheets cannot be used together: one is none, named by its place, 1 or 2, or is in the wrong role for its place, or the two differ
// in their names.
#[derive(Clone, Copy, Debug, PartialEq, Eq)]
pub enum Refusal {
    Sheet(u8, Fault),
    Role(u8),
    Names,
}

impl Refusal {
    // Its number in document 01's table.
    pub fn number(self) -> u8
        ensures { result ≡ (refusal_of self).number }
    {
        match self {
            Refusal::Sheet(_, fault) => fault.number(),
            Refusal::Role(_) => 8,
            Refusal::Names => 9,
        }
    }

    // The sheet that it carries, 0 where it carries none.
    pub fn sheet(self) -> u8
        ensures { result ≡ (refusal_of self).sheet }
    {
        match self {
            Refusal::Sheet(place, _) | Refusal::Role(place) => place,
            Refusal::Names => 0,
        }
    }

    // The state that it is for, 0 where it is for none.
    pub fn state(self) -> u8
        ensures { result ≡ (refusal_of self).state }
    {
        match self {
            Refusal::Sheet(_, fault) => fault.state(),
            Refusal::Role(_) | Refusal::Names => 0,
        }
    }

    // The offset of the byte at fault, 0 where no state is.
    pub fn offset(self) -> u16
        ensures { result ≡ (refusal_of self).offset }
    {
        match self {
            Refusal::Sheet(_, fault) => fault.offset(),
            Refusal::Role(_) | Refusal::Names => 0,
        }
    }
}

// Two sheets for two places, each wanted in its role.
pub fn check_pair(role1: u8, role2: u8, one: &[u8], two: &[u8]) -> Result<(), Refusal>
    ensures { reading_of refusal_of result ≡ whole (read_both role1 role2 one.now two.now) }
{
    check_in_place(1, one)?;
    check_in_place(2, two)?;
    if sheet::role(one) != role1 {
        return Err(Refusal::Role(1));
    }
    if sheet::role(two) != role2 {
        return Err(Refusal::Role(2));
    }
    if sheet::name_count(one) != sheet::name_count(two) {
        return Err(Refusal::Names);
    }
    Ok(())
}

// Whether the bytes in a place are a sheet.
fn check_in_place(place: u8, b: &[u8]) -> Result<(), Refusal>
    ensures { reading_of refusal_of result ≡ whole (in_place place (read_sheet b.now)) }
{
    sheet::check_sheet(b).map_err(|fault| Refusal::Sheet(place, fault))
}
