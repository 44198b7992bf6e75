// The comparison of two descriptions that may name those of a dictionary.
ghost use Rattle.std.specs.Prelude.{◌≡◌, [], ◌<◌, ◌≤◌, length};
ghost use Rattle.named.specs.Answer.{compare_named, output_named};
ghost use Rattle.named.specs.code.Sent.{ListTaken};

use crate::sent::sent_as;
use blocks::Refusal;
use compare::NotContained;
use unfolding::unfold_both;
use writing::bytes_for;

// With a dictionary of length 0: as they are sent. A call that never has a dictionary takes this way, and no buffers on its stack.
pub fn compare_sent(
    pairs: &[u8],
    c: &[u8],
    d: &[u8],
    out: &mut [u8],
) -> Result<Option<NotContained>, Refusal>
    ensures { (result ≡ compare_named pairs.now [] c.now d.now out.old)
        × (out.new ≡ output_named pairs.now [] c.now d.now out.old) }
{
    let answer = compare::compare(pairs, c, d, out);
    answer
        .map_err(|e| sent_as(c, 1, e))
        .map_err(|e| sent_as(d, 2, e))
}

// Under a list that is accepted and a dictionary that is not of length 0, with two buffers that have room for every description. Seven slices: four
// are the call's, as C hands them over, and a struct of three that are lent to write would say no more of them.
fn compare_unfolded(
    pairs: &[u8],
    dictionary: &[u8],
    c: &[u8],
    d: &[u8],
    a: &mut [u8],
    b: &mut [u8],
    out: &mut [u8],
) -> Result<Option<NotContained>, Refusal>
    requires { (0 < length dictionary.now) × ListTaken pairs.now × (8192 ≤ length a.old) × (8192 ≤ length b.old) }
    ensures { (result ≡ compare_named pairs.now dictionary.now c.now d.now out.old)
        × (out.new ≡ output_named pairs.now dictionary.now c.now d.now out.old) }
{
    let (n, m) = unfold_both(dictionary, c, d, a, b)?;
    let first = bytes_for(n);
    let second = bytes_for(m);
    compare::compare(pairs, &a[..first], &b[..second], out)
}

// The same with buffers of its own.
fn compare_named(
    pairs: &[u8],
    dictionary: &[u8],
    c: &[u8],
    d: &[u8],
    out: &mut [u8],
) -> Result<Option<NotContained>, Refusal>
    requires { (0 < length dictionary.now) × ListTaken pairs.now }
    ensures { (result ≡ compare_named pairs.now dictionary.now c.now d.now out.old)
        × (out.new ≡ output_named pairs.now dictionary.now c.now d.now out.old) }
{
    let mut a = [0u8; 8192];
    let mut b = [0u8; 8192];
    compare_unfolded(pairs, dictionary, c, d, &mut a, &mut b, out)
}

// Compares two descriptions under a list of pairs and a dictionary. The answer, the entry's number, the output that is asked for and what
// is written to it are those for the unfolded descriptions.
pub fn compare(
    pairs: &[u8],
    dictionary: &[u8],
    c: &[u8],
    d: &[u8],
    out: &mut [u8],
) -> Result<Option<NotContained>, Refusal>
    ensures { (result ≡ compare_named pairs.now dictionary.now c.now d.now out.old)
        × (out.new ≡ output_named pairs.now dictionary.now c.now d.now out.old) }
{
    if dictionary.is_empty() {
        return compare_sent(pairs, c, d, out);
    }
    pairs::read_pairs(pairs)?;
    compare_named(pairs, dictionary, c, d, out)
}
