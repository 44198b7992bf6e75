// The call.
ghost use Rattle.std.specs.Prelude.{◌≡◌, ◌≤◌, ◌+◌, Ok, is_ok, length, true};
ghost use Rattle.blocks.specs.Entries.{entries_of};
ghost use Rattle.blocks.specs.Reading.{reading_of};
ghost use Rattle.blocks.specs.declared.Schema.{Schema};
ghost use Rattle.earning.specs.Answer.{marked_bytes};
ghost use Rattle.missing.specs.Answer.{lack_of, lacked_of, lacks, missing_of};
ghost use Rattle.pairs.specs.Pairs.{pairs_reading};

use crate::Lack;
use crate::asking::{is_against, is_contained};
use blocks::{Cause, Refusal, Schema};
use earning::{Attempt, Part, Service, mark_left};

// What an accepted description lacks for an accepted service, with a byte for each entry of the service, where there is room.
fn mark_lacking<'a>(
    pairs: &'a [u8],
    c: Part<'a>,
    d: Part<'a>,
    out: &mut [u8],
) -> Result<Lack, Refusal>
    requires { (is_ok (pairs_reading pairs.now) ≡ true) × (is_ok (reading_of Schema.Description 1 c.bytes.now) ≡ true)
        × (is_ok (reading_of Schema.Description 2 d.bytes.now) ≡ true) × (c.total + d.total ≤ 1008) × (d.total ≤ length out.old) }
    ensures { (result ≡ Ok (lack_of pairs.now c.entry.bytes.now d.entry.bytes.now))
        × (out.new ≡ marked_bytes (lacks pairs.now c.entry.bytes.now d.entry.bytes.now) (length (entries_of d.entry.bytes.now)) out.old) }
{
    let service = Service {
        pairs,
        d: d.bytes,
        total: d.total,
    };
    if is_contained(service, c.bytes) {
        out[..d.total].fill(0);
        return Ok(Lack::Nothing);
    }
    let attempt = Attempt {
        stays: c,
        tried: d,
        service,
    };
    mark_left(attempt, out)?;
    if is_against(pairs, c, d) {
        return Ok(Lack::Against);
    }
    Ok(Lack::Addable)
}

/// Tells what a description lacks to be contained in a service, under a list of pairs. For a service of n entries it writes n bytes from the start of
/// the output: 1 for each entry of a kind other than 5 that is left when leaving out is tried from the last entry to the first, and for its owners;
/// else 0. With the entries of the service that are 1 the description is contained in it, and without any one of them that is no 'every' it is not.
/// Where nothing is lacking, all are 0. Later bytes stay.
///
/// Refused, the first that applies: the pairs; the description, as input 1; the service, as input 2, and it is too long where both together have
/// more than 16 blocks; an output of fewer than n bytes. A refusal writes nothing.
pub fn missing<'a>(
    pairs: &'a [u8],
    c: &'a [u8],
    d: &'a [u8],
    out: &mut [u8],
) -> Result<Lack, Refusal>
    ensures { (result ≡ missing_of pairs.now c.now d.now out.old) × (out.new ≡ lacked_of pairs.now c.now d.now out.old) }
{
    pairs::read_pairs(pairs)?;
    let first = reading::read(c, Schema::Description, 1)?;
    let second = reading::read(d, Schema::Description, 2)?;
    if 8192 < c.len() + d.len() {
        return Err(Refusal {
            cause: Cause::Length,
            input: 2,
            place: 0,
        });
    }
    let total = usize::from(second);
    if out.len() < total {
        return Err(Refusal {
            cause: Cause::Room,
            input: 0,
            place: 0,
        });
    }
    let stays = Part {
        bytes: c,
        total: usize::from(first),
    };
    let tried = Part { bytes: d, total };
    mark_lacking(pairs, stays, tried, out)
}
