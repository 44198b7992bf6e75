// Whether what is left of a list is still contained in the service: it is slotted from the table where it stands, and the service is read once for all
// trials.
ghost use Rattle.std.proofs.Props.{props};
ghost use Rattle.std.specs.Prelude.{◌≡◌, ◌++◌, eqb, is_ok, length, List, true};
ghost use Rattle.blocks.specs.Entries.{entries_of};
ghost use Rattle.blocks.specs.Reading.{reading_of};
ghost use Rattle.blocks.specs.declared.Entry.{Entry};
ghost use Rattle.blocks.specs.declared.Schema.{Schema};
ghost use Rattle.meaning.specs.Failing.{failing};
ghost use Rattle.narrow.specs.Keeping.{thinned};
ghost use Rattle.pairs.specs.Pairs.{pairs_reading, under};
ghost use Rattle.earning.specs.code.Tried.{Listed, set_of};

use crate::tried::Tried;
use pairs::{Exclusions, INDEX_BYTES};
use slots::{Asked, Listing};

/// A service, accepted, under a list of pairs that is accepted.
#[derive(Clone, Copy)]
pub struct Service<'a> {
    /// The list of pairs.
    pub pairs: &'a [u8],
    /// The service.
    pub d: &'a [u8],
    /// How many entries it has.
    pub total: usize,
    ghost listed: { is_ok (pairs_reading pairs.now) ≡ true },
    ghost read: { is_ok (reading_of Schema.Description 2 d.now) ≡ true },
    ghost counted: { total ≡ length (entries_of d.now) },
}

impl<'a> Service<'a> {
    // The service as one that lists of entries are judged by. What the index held before does not count.
    pub(crate) fn ask(self, index: &'a mut [u8; INDEX_BYTES]) -> Asked<'a>
        ensures { (result.exclusions.pairs.now ≡ self.entry.pairs.now) × (result.bytes.now ≡ self.entry.d.now) }
    {
        Asked {
            exclusions: Exclusions::new(self.pairs, index),
            bytes: self.d,
            total: self.total,
        }
    }
}

// What a trial takes: the list that is left. What stands there before does not count.
#[derive(Drop)]
pub(crate) struct Trial {
    rows: [u64; 1008],
}

impl Trial {
    pub(crate) fn new() -> Self {
        Trial { rows: [0; 1008] }
    }

    // Whether what is left of a list is contained in the service.
    pub(crate) fn passes(
        &mut self,
        service: Asked<'_>,
        tried: Tried<'_>,
        kept: &[bool; 1009],
    ) -> bool
        ensures { (pre es : List Entry) → Listed pre es tried.entry.entries.now tried.entry.before tried.entry.count
            → result ≡ eqb (failing (under service.entry.exclusions.pairs.now) (pre ++ thinned (set_of kept.now) 1 es) (entries_of service.entry.bytes.now)) 0 }
    {
        tried.thin(kept, &mut self.rows);
        let listing = Listing {
            rows: &self.rows[..tried.before + tried.count],
        };
        service.holds(listing)
    }
}
