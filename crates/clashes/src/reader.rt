// Reading a specimen under a list of pairs: number 11 of the list, then numbers 1 to 9 of the specimen, then number 12.
ghost use Rattle.std.specs.Prelude.{◌≡◌};
ghost use Rattle.blocks.specs.Reading.{reading_of};
ghost use Rattle.blocks.specs.declared.Schema.{Schema};
ghost use Rattle.clashes.specs.Clash.{specimen_reading};
ghost use Rattle.pairs.specs.Pairs.{pairs_reading};

use crate::clash::first_clash;
use blocks::{Cause, Refusal, Schema};
use pairs::read_pairs;

// Reads the n entries of a specimen that nothing but number 12 can refuse, under a list of m pairs.
fn read_clashes(pairs: &[u8], s: &[u8], m: u16, n: u16) -> Result<u16, Refusal>
    requires { (pairs_reading pairs.now ≡ Ok m) × (reading_of Schema.Specimen 1 s.now ≡ Ok n) }
    ensures { result ≡ specimen_reading pairs.now s.now }
{
    match first_clash(pairs, s, usize::from(n)) {
        Some(place) => Err(Refusal {
            cause: Cause::Clash,
            input: 1,
            place: place as u16,
        }),
        None => Ok(n),
    }
}

// Reads a specimen under an accepted list of m pairs. Where there is none, nothing more is read than without a list.
fn read_under(pairs: &[u8], s: &[u8], m: u16) -> Result<u16, Refusal>
    requires { pairs_reading pairs.now ≡ Ok m }
    ensures { result ≡ specimen_reading pairs.now s.now }
{
    let n = reading::read(s, Schema::Specimen, 1)?;
    if m == 0 {
        return Ok(n);
    }
    read_clashes(pairs, s, m, n)
}

// Reads a specimen, as input 1, under a list of pairs: its number of entries, or the refusal by the first number that applies, of the
// list, as input 0, or of the specimen.
pub fn read_specimen(pairs: &[u8], s: &[u8]) -> Result<u16, Refusal>
    ensures { result ≡ specimen_reading pairs.now s.now }
{
    let m = read_pairs(pairs)?;
    read_under(pairs, s, m)
}
