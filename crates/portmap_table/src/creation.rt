ghost use Rattle.std.specs.Prelude.{◌≡◌, ◌↔◌, ℕ, IsTrue, Some, None};
ghost use Rattle.portmap_table.specs.declared.creation.TheConstants.{COUNTER_LEAST, SHORT_MOST};
ghost use Rattle.portmap_table.specs.Creation.{IsCounter, IsLegalCreation, IsCreationFor, ChoiceIsLegal, choice};
ghost use Rattle.portmap_table.specs.Creation.{counter_after, short_choice, successor, wide_choice};

use portmap_wire::WIDE_VERSION;

/// The largest of the short creations, which begin at 1.
const SHORT_MOST: u32 = 3;

/// The least value of the counter, above all short creations.
pub const COUNTER_LEAST: u32 = SHORT_MOST + 1;

/// Law: the constants that definitions take from the code have the values of this profile.
pub fn numbers_are_the_profiles()
    ensures { (SHORT_MOST ≡ 3) × (COUNTER_LEAST ≡ 4) }
{}

fn successor(counter: u32) -> u32
    ensures { result ≡ successor counter }
{
    if counter == u32::MAX {
        COUNTER_LEAST
    } else {
        counter + 1
    }
}

fn wide_choice(counter: u32, last: Option<u32>) -> u32
    ensures { result ≡ wide_choice counter last }
{
    match last {
        Some(last) if last == counter => successor(counter),
        _ => counter,
    }
}

fn short_choice(last: Option<u32>) -> u32
    ensures { result ≡ short_choice last }
{
    match last {
        Some(last) if 1 <= last && last <= SHORT_MOST => last % SHORT_MOST + 1,
        _ => 1,
    }
}

pub(crate) fn is_creation_for(high: u16, creation: u32) -> bool
    ensures { IsTrue result ↔ IsCreationFor high creation }
{
    if high < WIDE_VERSION {
        1 <= creation && creation <= SHORT_MOST
    } else {
        COUNTER_LEAST <= creation
    }
}

fn is_legal(high: u16, last: Option<u32>, creation: u32) -> bool
    ensures { IsTrue result ↔ IsLegalCreation high last creation }
{
    is_creation_for(high, creation) && last != Some(creation)
}

fn choice(counter: u32, high: u16, last: Option<u32>) -> u32
    requires { IsCounter counter }
    ensures exact { result ≡ choice counter high last }
    ensures legal { IsLegalCreation high last result }
{
    if high < WIDE_VERSION {
        short_choice(last)
    } else {
        wide_choice(counter, last)
    }
}

/// Returns `wanted` if a node of this highest version may get it for a name whose last creation is `last`. Otherwise
/// returns the choice of this profile.
pub fn creation_for(wanted: Option<u32>, counter: u32, high: u16, last: Option<u32>) -> u32
    requires { IsCounter counter }
    ensures wanted { (creation : ℕ) → wanted ≡ Some creation → IsLegalCreation high last creation → creation ≡ result }
    ensures choice { wanted ≡ None → result ≡ choice counter high last }
    ensures legal { IsLegalCreation high last result }
{
    match wanted {
        Some(creation) if is_legal(high, last, creation) => creation,
        _ => choice(counter, high, last),
    }
}

pub(crate) fn counter_after(counter: u32, high: u16, taken: u32) -> u32
    requires counter { IsCounter counter }
    requires taken { IsCreationFor high taken }
    ensures exact { result ≡ counter_after counter high taken }
    ensures counter { IsCounter result }
{
    if high < WIDE_VERSION {
        return counter;
    }
    successor(taken)
}

/// Law: the choice is always legal.
pub fn choice_is_legal()
    ensures { ChoiceIsLegal }
{}
