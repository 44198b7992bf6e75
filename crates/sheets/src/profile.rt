// The profile of one entry: its kind, its number and its depth.
ghost use Rattle.std.specs.Prelude.{◌≡◌, None, true};
ghost use Rattle.sheets.specs.Sheet.{in_profile, kind_in};
ghost use Rattle.sheets.specs.code.SheetSteps.{head_start, sheet_refusal};

use blocks::{Cause, Entry, Schema, kinds};
use reading::entry_refusal;

// Whether the profile knows a kind.
#[tactic(auto, unfolding(crate::specs::Sheet::kind_in))]
fn kind_in(kind: u8) -> bool
    ensures { result ≡ kind_in kind }
{
    match kind {
        kinds::HAS => true,
        kinds::AT_LEAST => true,
        kinds::AT_MOST => true,
        kinds::EVERY => true,
        _ => false,
    }
}

// Whether the profile allows an entry's kind and number.
#[tactic(auto, unfolding(crate::specs::Sheet::in_profile))]
fn in_profile(e: Entry) -> bool
    ensures { result ≡ in_profile e }
{
    kind_in(e.kind) && e.number <= 99
}

// What is added to an entry's number by its kind: the sum is at most 100 where a look shows it to be in a sheet. All are
// constants, so that this is a look into a table: entries come in any order of kinds, and a jump by kind would be guessed
// wrong. Lacks have their own, since a table with a hole among its kinds is asked for that first.
#[tactic(auto, unfolding(crate::specs::code::SheetSteps::head_start))]
fn head_start(kind: u8) -> u32
    ensures { result ≡ head_start kind }
{
    match kind {
        kinds::HAS => 100,
        kinds::LACKS => 101,
        kinds::AT_LEAST => 1,
        kinds::AT_MOST => 1,
        kinds::EVERY => 100,
        _ => 102,
    }
}

// Whether a look shows that an entry whose owner has level l is in a sheet. Of entries that are, all are told here.
fn plainly_in(e: Entry, l: u8) -> bool
    ensures { result ≡ true → sheet_refusal e l ≡ None }
{
    if e.reserved != 0 {
        return false;
    }
    if e.name == 0 {
        return false;
    }
    if l == 0 {
        return false;
    }
    if 5 <= l {
        return false;
    }
    u32::from(e.number) + head_start(e.kind) <= 100
}

// Why an entry of a sheet is refused whose owner has level l, if it is: as in any description, and else where it is
// outside the profile. An entry is one less deep than its owner's level.
#[inline(always)]
pub(crate) fn sheet_refusal(e: Entry, l: u8) -> Option<Cause>
    ensures { result ≡ sheet_refusal e l }
{
    if plainly_in(e, l) {
        return None;
    }
    if let Some(cause) = entry_refusal(Schema::Description, e, l) {
        return Some(cause);
    }
    if !in_profile(e) {
        return Some(Cause::Profile);
    }
    if 4 < l {
        return Some(Cause::Profile);
    }
    None
}
