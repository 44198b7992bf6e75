// All services in one call: which services of a catalogue contain what a supplier describes. `slots` reads and judges them; here their bytes
// are handed out, all of them or none.
//
// The contracts cite specs/Answer. That each byte is the answer of the single comparison, and what it says of every record, is proved in
// `answers`.
#![tactic(auto)]

ghost use Rattle.std.specs.Prelude.{◌≡◌};
ghost use Rattle.catalogue.specs.Answer.{catalogue_of, filled_of};

use blocks::{Cause, Refusal};

// Compares the supplier's description with each of 1 to 64 services laid end to end, under a list of pairs and a dictionary, and fills one
// byte for each: 1 contained, 0 not. Later bytes stay. Where anything is refused, or the output has fewer bytes than there are services, the
// refusal is returned and no byte changes.
pub fn catalogue(
    pairs: &[u8],
    dictionary: &[u8],
    c: &[u8],
    list: &[u8],
    out: &mut [u8],
) -> Result<u16, Refusal>
    ensures { (result ≡ catalogue_of pairs.now dictionary.now c.now list.now out.old)
        × (out.new ≡ filled_of pairs.now dictionary.now c.now list.now out.old) }
{
    let mut answers = [0u8; 64];
    let count = slots::judge_list(pairs, dictionary, c, list, &mut answers)?;
    let n = usize::from(count);
    if out.len() < n {
        return Err(Refusal {
            cause: Cause::Room,
            input: 0,
            place: 0,
        });
    }
    out[..n].copy_from_slice(&answers[..n]);
    Ok(count)
}
