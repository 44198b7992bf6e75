// Groups that own nothing, and places that an item with nothing fits: such groups are judged once for each place, and not one by one.
// Marks of owners say which own something, and which places ask for something.
ghost use Rattle.std.specs.Prelude.{◌≡◌, ◌||◌, false, ◌<◌, get_or, length, set};
ghost use Rattle.fit.specs.code.Bare.{demands};

use blocks::{Entry, kinds};

// Whether an item with nothing does not meet an entry. `&` and `|` take no jumps: entries come in any order of kinds, and a jump would be guessed
// wrong.
fn demands_item(e: Entry) -> bool
    ensures { result ≡ demands e }
{
    let counts = (e.kind != kinds::AT_LEAST) | (e.number != 0);
    (e.kind != kinds::LACKS) & (e.kind != kinds::AT_MOST) & (e.kind != kinds::EVERY) & counts
}

// Marks the owner of an entry that an item with nothing does not meet. The mark is stored either way, without a jump.
pub(crate) fn mark_demand(marks: &mut [bool], e: Entry)
    requires { e.owner < length marks.old }
    ensures { marks.new ≡ set marks.old e.owner (get_or marks.old e.owner false || demands e) }
{
    marks[usize::from(e.owner)] |= demands_item(e);
}
