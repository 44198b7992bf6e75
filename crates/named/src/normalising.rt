// The normal form of a description that may name those of a dictionary.
ghost use Rattle.std.specs.Prelude.{◌≡◌, [], ◌<◌, ◌≤◌, length};
ghost use Rattle.named.specs.Answer.{normalise_named, normalised_named};
ghost use Rattle.named.specs.code.Sent.{ListTaken};

use crate::sent::sent_as;
use blocks::Refusal;
use unfolding::unfold_into;
use writing::bytes_for;

// With a dictionary of length 0: as it is sent.
pub fn normalise_sent(pairs: &[u8], d: &[u8], out: &mut [u8]) -> Result<u16, Refusal>
    ensures { (result ≡ normalise_named pairs.now [] d.now out.old) × (out.new ≡ normalised_named pairs.now [] d.now out.old) }
{
    normal::normalise(pairs, d, out).map_err(|e| sent_as(d, 1, e))
}

// Under a list that is accepted and a dictionary that is not of length 0, with a buffer that has room for every description.
fn normalise_unfolded(
    pairs: &[u8],
    dictionary: &[u8],
    d: &[u8],
    buffer: &mut [u8],
    out: &mut [u8],
) -> Result<u16, Refusal>
    requires { (0 < length dictionary.now) × ListTaken pairs.now × (8192 ≤ length buffer.old) }
    ensures { (result ≡ normalise_named pairs.now dictionary.now d.now out.old)
        × (out.new ≡ normalised_named pairs.now dictionary.now d.now out.old) }
{
    let n = unfold_into(dictionary, d, 1, buffer)?;
    let end = bytes_for(n);
    normal::normalise(pairs, &buffer[..end], out)
}

// The same with a buffer of its own.
fn normalise_named(
    pairs: &[u8],
    dictionary: &[u8],
    d: &[u8],
    out: &mut [u8],
) -> Result<u16, Refusal>
    requires { (0 < length dictionary.now) × ListTaken pairs.now }
    ensures { (result ≡ normalise_named pairs.now dictionary.now d.now out.old)
        × (out.new ≡ normalised_named pairs.now dictionary.now d.now out.old) }
{
    let mut buffer = [0u8; 8192];
    normalise_unfolded(pairs, dictionary, d, &mut buffer, out)
}

// Writes the normal form of a description, under a list of pairs and a dictionary, in blocks from the start of the output, which is at least
// as long as the unfolded description, and returns its number of entries; later bytes stay. Where anything is refused, or the output is
// shorter, the refusal is returned and no byte changes.
pub fn normalise(
    pairs: &[u8],
    dictionary: &[u8],
    description: &[u8],
    out: &mut [u8],
) -> Result<u16, Refusal>
    ensures { (result ≡ normalise_named pairs.now dictionary.now description.now out.old)
        × (out.new ≡ normalised_named pairs.now dictionary.now description.now out.old) }
{
    if dictionary.is_empty() {
        return normalise_sent(pairs, description, out);
    }
    pairs::read_pairs(pairs)?;
    normalise_named(pairs, dictionary, description, out)
}
