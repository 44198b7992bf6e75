// A set of a description's entries with their owners, and a byte for each.
ghost use Rattle.std.specs.Prelude.{◌≡◌, ◌≤◌, ℕ, length};
ghost use Rattle.base.proofs.Lists.{listed};
ghost use Rattle.base.specs.Range.{bit};
ghost use Rattle.base.specs.Stores.{stored};
ghost use Rattle.blocks.specs.Entries.{entries_of};
ghost use Rattle.blocks.specs.Promise.{Legal};
ghost use Rattle.blocks.specs.declared.Schema.{Schema};
ghost use Rattle.narrow.specs.Keeping.{marked};
ghost use Rattle.earning.specs.code.Tried.{set_of};

use blocks::nth_entry;

// Puts the owners of what is kept into the set. From the last entry to the first: owners stand before what they own.
pub(crate) fn mark_owners(d: &[u8], total: usize, kept: &mut [bool; 1009])
    requires { (total ≡ length (entries_of d.now)) × (total ≤ 1008) × Legal Schema.Description (entries_of d.now) }
    ensures { (k : ℕ) → 1 ≤ k → k ≤ total → set_of kept.new k ≡ marked (set_of kept.old) (entries_of d.now) k }
{
    for k in (1..=total).rev() {
        let owner = usize::from(nth_entry(d, total, k).owner);
        kept[owner] |= kept[k];
    }
}

// Writes a byte for each of n entries: 1 for those of the set.
pub(crate) fn put_marks(kept: &[bool; 1009], n: usize, out: &mut [u8])
    requires { (n ≤ 1008) × (n ≤ length out.old) }
    ensures { out.new ≡ stored out.old 0 (listed (λ k. bit (set_of kept.now k)) 1 n) }
{
    for i in 0..n {
        out[i] = u8::from(kept[i + 1]);
    }
}
