// The rules of single entries of the stored form: numbers 4, 15 and 6 of the table of refusals.
ghost use Rattle.std.specs.Prelude.{◌≡◌};
ghost use Rattle.stored.specs.code.Steps.{stored_refusal};

use crate::StoredEntry;
use crate::entries::owned_entry;
use blocks::{Cause, Schema};
use reading::entry_refusal;

// Why an entry is refused where the next may have depth `most`, if it is: 4 before 15 before 6. As an entry
// of the top it may break 4 alone.
#[inline(always)]
pub(crate) fn stored_refusal(x: StoredEntry, most: u8) -> Option<Cause>
    ensures { result ≡ stored_refusal x most }
{
    if let Some(form) = entry_refusal(Schema::Description, owned_entry(x, 0), 1) {
        return Some(form);
    }
    if most < x.depth {
        return Some(Cause::Walking);
    }
    if 32 < x.depth {
        return Some(Cause::Depth);
    }
    None
}
