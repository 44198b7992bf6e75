// Entries read by number, whose bytes are known to be there: no division for an entry, and no test of its number.
ghost use Rattle.std.specs.Prelude.{◌≡◌, ◌≤◌, ◌<◌};
ghost use Rattle.blocks.specs.Entries.{entries_of, nth};
ghost use Rattle.blocks.specs.Frame.{entry_pos, plain};
ghost use Rattle.fit.specs.code.Index.{Has};

use blocks::Entry;

// The index of the first byte of entry k, counted from 1. The product, divided by a power of two, is the number of blocks before it: so
// there is no division by the room of a block.
#[tactic(auto, using(crate::proofs::entries::EntryLaws::place_is))]
fn place_of(k: usize) -> usize
    requires { (1 ≤ k) × (k < 2048) }
    ensures { result ≡ entry_pos plain k }
{
    8 * (k + k * 4161 / 262144) - 4
}

// Entry k of an input, which has it. `first_chunk` would test its length once more, which costs a walk over entries some hundredths.
pub(crate) fn entry_at(s: &[u8], k: usize) -> Entry
    requires { Has s.now k }
    ensures { result ≡ nth (entries_of s.now) k }
{
    let at = place_of(k);
    Entry::from(&s[at..at + 8].as_chunks::<8>().0[0])
}
