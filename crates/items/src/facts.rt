// The facts of a delivered record, each as one number, in ascending order, so that those that say one thing stand in a row.
ghost use Rattle.std.specs.Prelude.{◌≡◌, ◌/◌, ◌&&◌, ◌<◌, ◌≤◌, ℕ, Bool, eqb, get_or, leb, length, ltb, map};
ghost use Rattle.std.specs.List.{list_any};
ghost use Rattle.blocks.specs.Entries.{entries_of};
ghost use Rattle.items.specs.code.Record.{fact_of};
ghost use Rattle.sorting.specs.Sorted.{sorted};
ghost use Rattle.items.specs.code.Facts.{Alike, Ascends, Small};

use blocks::{Entry, entries_in_order};
use delivered::{Delivered, LINKED};

// The fact of an entry. No jump by kind: entries come in any order of kinds.
fn fact_of(e: Entry) -> u64
    ensures { (result ≡ fact_of e) × (result < 1099511627776) }
{
    let what = 2 * u64::from(e.name) + u64::from(e.kind == LINKED);
    65536 * what
        + 256 * u64::from(e.owner).saturating_sub(1)
        + u64::from(e.number).saturating_sub(1)
}

// The facts of a record, in ascending order.
pub(crate) fn gather(delivered: Delivered, facts: &mut [u64])
    requires { length facts.old ≡ delivered.entries }
    ensures sorted { facts.new ≡ sorted (map fact_of (entries_of delivered.entry.bytes.now)) }
    ensures small { (i : ℕ) → i < length facts.new → get_or facts.new i 0 < 1099511627776 }
{
    for (before, bytes) in entries_in_order(delivered.bytes(), delivered.entries()).enumerate() {
        facts[before] = fact_of(Entry::from(bytes));
    }
    sorting::sort(facts);
}

// Facts in ascending order.
#[derive(Clone, Copy)]
pub(crate) struct Facts<'a> {
    pub facts: &'a [u64],
    ghost ascends: { Ascends facts.now },
    ghost small: { Small facts.now },
}

impl<'a> Facts<'a> {
    // Those that say one thing.
    pub(crate) fn saying(self, what: u64) -> &'a [u64]
        ensures those { (p : ℕ → Bool) → list_any p result.now ≡ list_any (λ f. eqb (f / 65536) what && p f) self.entry.facts.now }
        ensures alike { Alike result.now }
    {
        let from = self.facts.partition_point(
            |f: &u64| -> bool
                ensures { result ≡ ltb (f.now / 65536) what }
            { *f / 65536 < what },
        );
        let rest = &self.facts[from..];
        let count = rest.partition_point(
            |f: &u64| -> bool
                ensures { result ≡ leb (f.now / 65536) what }
            { *f / 65536 <= what },
        );
        &rest[..count]
    }
}
