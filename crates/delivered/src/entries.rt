// The rules of one entry of a delivered record by itself: numbers 4 and 10.
ghost use Rattle.std.specs.Prelude.{◌≡◌, ◌&&◌, ltb, leb};
ghost use Rattle.delivered.specs.Reading.{form_ok, is_item, items_ok};

use blocks::{Entry, kinds};

/// The kind of an entry that links its owner to the item of its number. It stands in delivered records alone.
pub const LINKED: u8 = 8;

// Whether an entry has a form that is allowed: the contrary of number 4.
pub(crate) fn form_ok(e: Entry) -> bool
    ensures { result ≡ form_ok e }
{
    if e.reserved != 0 {
        return false;
    }
    if e.name == 0 {
        return false;
    }
    if e.kind == kinds::HAS {
        return e.number == 0;
    }
    e.kind == LINKED
}

// Whether a number is that of an item, of so many.
fn is_item(total: usize, x: u16) -> bool
    ensures { result ≡ is_item total x }
{
    0 < x && usize::from(x) <= total
}

// Whether the items that an entry speaks of are there: the contrary of number 10.
pub(crate) fn items_ok(total: usize, e: Entry) -> bool
    ensures { result ≡ items_ok total e }
{
    if !is_item(total, e.owner) {
        return false;
    }
    e.kind != LINKED || is_item(total, e.number)
}
