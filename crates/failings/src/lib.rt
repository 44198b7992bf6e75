// Which entries of a service a supplier's description does not say, each by itself, with its owners alone. `slots` reads and judges them; here
// their bytes are handed out, all of them or none.
//
// The contracts cite specs/Answer. What a byte says of every record is in specs/Promise, and beside the single comparison in `answers`.
#![tactic(auto)]

ghost use Rattle.std.specs.Prelude.{◌≡◌};
ghost use Rattle.failings.specs.Answer.{failed_of, failing_of};

use blocks::{Cause, Refusal};

/// Tells whether a description is contained in a service, under a list of pairs, and which entries of the service fail. For a service of n
/// entries it writes n bytes from the start of the output: 1 for each entry that, with its owners alone, the description is not contained in, else
/// 0. An 'every' by itself asks for nothing and has 0. Later bytes stay.
///
/// Refused, the first that applies: the pairs; the description, as input 1; the service, as input 2; an output of fewer than n bytes, contained or
/// not. A refusal writes nothing.
pub fn failing(pairs: &[u8], c: &[u8], d: &[u8], out: &mut [u8]) -> Result<bool, Refusal>
    ensures { (result ≡ failing_of pairs.now c.now d.now out.old) × (out.new ≡ failed_of pairs.now c.now d.now out.old) }
{
    let mut bytes = [0u8; 1008];
    let judged = slots::each_failing(pairs, c, d, &mut bytes)?;
    let n = usize::from(judged.entries);
    if out.len() < n {
        return Err(Refusal {
            cause: Cause::Room,
            input: 0,
            place: 0,
        });
    }
    out[..n].copy_from_slice(&bytes[..n]);
    Ok(judged.contained)
}
