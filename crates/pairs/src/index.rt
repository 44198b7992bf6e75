// The index of a list of pairs: the numbers under which the list names a property stand in the chain of a bucket, so that a property that
// no pair has costs one look. A link is a byte, and 0 where a chain ends: an Option for each would not fit the bytes that are lent.
ghost use Rattle.std.specs.Prelude.{◌≡◌, ◌+◌, ◌<◌, ◌≤◌, min};
ghost use Rattle.pairs.specs.code.Index.{bucket_of, indexed_to, named_count, noted, number_beside};

use crate::list::named_at;
use blocks::Property;

// The bytes of an index: 256 buckets, and then the link of each number of a list, at most 128; the others stay.
pub const INDEX_BYTES: usize = 512;

// The number of the other property of its pair; 0 for number 0, which is no mark: no caller asks for it, and the contract holds there too. The first
// of a pair is the odd one: no jump by it, since nothing foretells which of the two a number is.
pub(crate) fn number_beside(k: u8) -> usize
    ensures { (result ≡ number_beside k) × (result ≤ 256) }
{
    let n = usize::from(k);
    n.saturating_sub(1) + 2 * (n % 2)
}

// The bucket of a property.
pub(crate) fn bucket(p: Property) -> usize
    ensures { (result ≡ bucket_of p.0) × (result < 256) }
{
    usize::from(p.0) % 256
}

// Puts number k in front of the chain of its bucket. List and index are no `Exclusions` here: that says that the index is whole.
// The same two stores as those of clashes, `add`, and of fit, `put`: each on a table of its own layout.
#[tactic(auto, unfolding(crate::specs::code::Index::noted))]
fn note(pairs: &[u8], index: &mut [u8; INDEX_BYTES], k: usize)
    requires { (1 ≤ k) × (k ≤ named_count pairs.now) × (k ≤ 128) }
    ensures { index.new ≡ noted pairs.now index.old k }
{
    let b = bucket(named_at(pairs, k));
    index[256 + k] = index[b];
    index[b] = k as u8;
}

// Puts the properties of a list, those of 64 pairs at most, on the chains of an index, which is blank before.
#[tactic(auto, unfolding(crate::specs::code::Index::indexed_to))]
pub(crate) fn index_pairs(pairs: &[u8], index: &mut [u8; INDEX_BYTES])
    ensures { index.new ≡ indexed_to pairs.now index.old (min (named_count pairs.now) 128) }
{
    let n = (pairs.len() / 4).min(64);
    for k in 0..2 * n {
        note(pairs, index, k + 1);
    }
}
