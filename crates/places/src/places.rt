// A description that is read, and the entries of each of its places in order.
ghost use Rattle.std.specs.Prelude.{◌≡◌, ◌≤◌, ℕ, get_or, length, Ok, Err, IfOk, IfErr};
ghost use Rattle.base.specs.Keys.{unless_zero};
ghost use Rattle.blocks.specs.Entries.{entries_of, nth, zero_entry};
ghost use Rattle.blocks.specs.Promise.{Legal};
ghost use Rattle.blocks.specs.Reading.{reading_of};
ghost use Rattle.blocks.specs.declared.Schema.{Schema};
ghost use Rattle.places.specs.Owned.{next_of, owned_after, with_room};
ghost use Rattle.places.specs.code.Chained.{Chained};

use crate::PlaceTables;
use blocks::{Entry, Refusal};

/// A description that is accepted, and the tables of its places. It borrows these, so that it can be handed on as it is.
#[derive(Clone, Copy)]
pub struct Places<'a> {
    bytes: &'a [u8],
    total: usize,
    entries: &'a [Entry],
    first: &'a [u16],
    next: &'a [u16],
    ghost counted: { total ≡ length (entries_of bytes.now) },
    ghost few: { total ≤ 1008 },
    ghost legal: { Legal Schema.Description (entries_of bytes.now) },
    ghost numbered: { (n : ℕ) → get_or entries.now n zero_entry ≡ nth (entries_of bytes.now) n },
    ghost chained: { Chained (entries_of bytes.now) first.now next.now },
}

// What a table has at an index, if that is an entry: 0 is none, and so is an index past the table.
fn entry_in(table: &[u16], i: usize) -> Option<usize>
    ensures { result ≡ unless_zero (get_or table.now i 0) }
{
    let n = usize::from(*table.get(i)?);
    (n != 0).then_some(n)
}

impl<'a> Places<'a> {
    /// Reads a description as input number `input`, and fills the lent tables; what they held before does not count. Where the description is
    /// refused they stay as they are. Refused, the first that applies: the description in full; as a room that is too small, with input 0, tables
    /// of N cells for N entries or more.
    pub fn read<const N: usize>(
        d: &'a [u8],
        input: u16,
        tables: &'a mut PlaceTables<N>,
    ) -> Result<Self, Refusal>
        ensures refused { IfErr result (λ x. with_room N (reading_of Schema.Description input d.now) ≡ Err x) }
        ensures accepted { IfOk result (λ p. (with_room N (reading_of Schema.Description input d.now) ≡ Ok p.total) × (p.bytes.now ≡ d.now)) }
    {
        let total = tables.read(d, input)?;
        Ok(Places {
            bytes: d,
            total,
            entries: &tables.entries[..total + 1],
            first: &tables.first[..total + 1],
            next: &tables.next[..total + 1],
        })
    }

    /// How many entries the description has.
    pub fn total(self) -> usize
        ensures { result ≡ length (entries_of self.entry.bytes.now) }
    {
        self.total
    }

    /// Entry n, counted from 1. Where n is the number of none, it is the entry of zero bytes.
    pub fn entry(self, n: usize) -> Entry
        ensures { result ≡ nth (entries_of self.entry.bytes.now) n }
    {
        self.entries.get(n).copied().unwrap_or_default()
    }

    /// The number of the first entry that entry `o` owns, of the top where `o` is 0. None where it owns nothing, or is no entry.
    pub fn begin(self, o: usize) -> Option<usize>
        ensures { result ≡ unless_zero (owned_after (entries_of self.entry.bytes.now) o 0) }
    {
        entry_in(self.first, o)
    }

    /// The number of the next entry of the place in which entry n stands. None where n is the last there, or no entry.
    pub fn after(self, n: usize) -> Option<usize>
        ensures { result ≡ unless_zero (next_of (entries_of self.entry.bytes.now) n) }
    {
        entry_in(self.next, n)
    }
}
