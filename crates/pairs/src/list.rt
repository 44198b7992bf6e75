// The properties that a list of pairs names. Pairs count from 1, and so do the properties, two for each pair; bytes past the last whole pair
// belong to none.
ghost use Rattle.std.specs.Prelude.{◌≡◌, ◌≤◌};
ghost use Rattle.pairs.specs.code.Index.{named_at, named_count};

use blocks::{Property, word_of_bytes};

// The property of number k, of 64 pairs at most. Its two bytes are there, so that no length is tested.
#[tactic(auto, unfolding(crate::specs::code::Index::named_at, crate::specs::Pairs::pair_count, blocks::specs::Words::word_at))]
pub(crate) fn named_at(pairs: &[u8], k: usize) -> Property
    requires { (1 ≤ k) × (k ≤ named_count pairs.now) × (k ≤ 128) }
    ensures { result.0 ≡ named_at pairs.now k }
{
    let at = 2 * (k - 1);
    Property(word_of_bytes(pairs[at], pairs[at + 1]))
}
