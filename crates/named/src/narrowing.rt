// The narrowest description that contains two, which may name those of a dictionary.
ghost use Rattle.std.specs.Prelude.{◌≡◌, [], ◌<◌, ◌≤◌, length};
ghost use Rattle.named.specs.Answer.{narrowed_named, narrowest_named};
ghost use Rattle.named.specs.code.Sent.{ListTaken};

use crate::sent::sent_as;
use blocks::Refusal;
use unfolding::unfold_both;
use writing::bytes_for;

// With a dictionary of length 0: as they are sent.
fn narrowest_sent(pairs: &[u8], a: &[u8], b: &[u8], out: &mut [u8]) -> Result<u16, Refusal>
    ensures { (result ≡ narrowest_named pairs.now [] a.now b.now out.old)
        × (out.new ≡ narrowed_named pairs.now [] a.now b.now out.old) }
{
    let answer = narrowest::narrowest(pairs, a, b, out);
    answer
        .map_err(|e| sent_as(a, 1, e))
        .map_err(|e| sent_as(b, 2, e))
}

// Under a list that is accepted and a dictionary that is not of length 0, with two buffers that have room for every description. Seven slices, as
// for the comparison.
fn narrowest_unfolded(
    pairs: &[u8],
    dictionary: &[u8],
    a: &[u8],
    b: &[u8],
    first: &mut [u8],
    second: &mut [u8],
    out: &mut [u8],
) -> Result<u16, Refusal>
    requires { (0 < length dictionary.now) × ListTaken pairs.now × (8192 ≤ length first.old) × (8192 ≤ length second.old) }
    ensures { (result ≡ narrowest_named pairs.now dictionary.now a.now b.now out.old)
        × (out.new ≡ narrowed_named pairs.now dictionary.now a.now b.now out.old) }
{
    let (n, m) = unfold_both(dictionary, a, b, first, second)?;
    let to = bytes_for(n);
    let end = bytes_for(m);
    narrowest::narrowest(pairs, &first[..to], &second[..end], out)
}

// The same with buffers of its own.
fn narrowest_named(
    pairs: &[u8],
    dictionary: &[u8],
    a: &[u8],
    b: &[u8],
    out: &mut [u8],
) -> Result<u16, Refusal>
    requires { (0 < length dictionary.now) × ListTaken pairs.now }
    ensures { (result ≡ narrowest_named pairs.now dictionary.now a.now b.now out.old)
        × (out.new ≡ narrowed_named pairs.now dictionary.now a.now b.now out.old) }
{
    let mut first = [0u8; 8192];
    let mut second = [0u8; 8192];
    narrowest_unfolded(pairs, dictionary, a, b, &mut first, &mut second, out)
}

// Writes the narrowest description that contains two, under a list of pairs and a dictionary, in blocks from the start of the output, and returns
// its number of entries; later bytes stay. What is refused, the 16 blocks of both among it, the output that is asked for and what is written to it
// are those for the unfolded descriptions.
pub fn narrowest(
    pairs: &[u8],
    dictionary: &[u8],
    a: &[u8],
    b: &[u8],
    out: &mut [u8],
) -> Result<u16, Refusal>
    ensures { (result ≡ narrowest_named pairs.now dictionary.now a.now b.now out.old)
        × (out.new ≡ narrowed_named pairs.now dictionary.now a.now b.now out.old) }
{
    if dictionary.is_empty() {
        return narrowest_sent(pairs, a, b, out);
    }
    pairs::read_pairs(pairs)?;
    narrowest_named(pairs, dictionary, a, b, out)
}
