// The call.
ghost use Rattle.std.specs.Prelude.{◌≡◌};
ghost use Rattle.earning.specs.Answer.{earned_of, earning_of};

use crate::attempt::{Attempt, Part, mark_left};
use crate::trying::Service;
use blocks::{Refusal, Schema};

/// Tells whether a description is contained in a service, under a list of pairs, and which of its entries earn that yes. For a description of n
/// entries it writes n bytes from the start of the output: 1 for each entry of a kind other than 5 that is left when leaving out is tried from
/// the last entry to the first, and for its owners; else 0. Where the description is not contained, all are 0. Later bytes stay.
///
/// Refused, the first that applies: the pairs; the description, as input 1; the service, as input 2; an output of fewer than n bytes. A refusal
/// writes nothing.
pub fn earning<'a>(
    pairs: &'a [u8],
    c: &'a [u8],
    d: &'a [u8],
    out: &mut [u8],
) -> Result<bool, Refusal>
    ensures { (result ≡ earning_of pairs.now c.now d.now out.old) × (out.new ≡ earned_of pairs.now c.now d.now out.old) }
{
    pairs::read_pairs(pairs)?;
    let total = reading::read(c, Schema::Description, 1)?;
    let asked = reading::read(d, Schema::Description, 2)?;
    let stays = Part {
        bytes: &[],
        total: 0,
    };
    let tried = Part {
        bytes: c,
        total: usize::from(total),
    };
    let service = Service {
        pairs,
        d,
        total: usize::from(asked),
    };
    let attempt = Attempt {
        stays,
        tried,
        service,
    };
    mark_left(attempt, out)
}
