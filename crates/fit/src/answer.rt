// The fit answer: both inputs are read in full, and then the top item is judged.
ghost use Rattle.std.specs.Prelude.{◌≡◌};
ghost use Rattle.blocks.specs.Reading.{reading_of};
ghost use Rattle.blocks.specs.declared.Schema.{Schema};
ghost use Rattle.fit.specs.Answer.{second_of, fit_of};
ghost use Rattle.fit.specs.Counted.{counted_of, groups_in, unless_stopped, with_table};

use crate::Counted;
use crate::tables::judge_top;
use blocks::{Refusal, Schema};

// A refusal: nothing was added.
fn refused(refusal: Refusal) -> Counted
    ensures { result ≡ with_table (Err refusal) 0 }
{
    Counted {
        answer: Err(refusal),
        table: 0,
        walk: 0,
    }
}

// The answer for a specimen that is accepted, with n entries: the description is read, and the top item judged.
fn fit_accepted(s: &[u8], n: usize, d: &[u8]) -> Counted
    requires { reading_of Schema.Specimen 1 s.now ≡ Ok n }
    ensures { result ≡ with_table (second_of s.now d.now (reading_of Schema.Description 2 d.now))
        (unless_stopped (reading_of Schema.Description 2 d.now) (groups_in s.now)) }
{
    match reading::read(d, Schema::Description, 2) {
        Err(refusal) => refused(refusal),
        Ok(m) => {
            let j = judge_top(s, n, d, usize::from(m));
            Counted {
                answer: Ok(j.fits),
                table: j.table,
                walk: j.walk,
            }
        }
    }
}

// The fit answer without pairs, with the number of additions of items that it took: in making the table of totals, and in the walk over
// entries.
pub fn fit_counted(specimen: &[u8], description: &[u8]) -> Counted
    ensures { result ≡ counted_of specimen.now description.now }
{
    match reading::read(specimen, Schema::Specimen, 1) {
        Err(refusal) => refused(refusal),
        Ok(n) => fit_accepted(specimen, usize::from(n), description),
    }
}

// Whether the top item of a specimen, input 1, fits a description, input 2, where records keep a list of pairs; or the refusal.
pub fn fit(pairs: &[u8], specimen: &[u8], description: &[u8]) -> Result<bool, Refusal>
    ensures { result ≡ fit_of pairs.now specimen.now description.now }
{
    let n = clashes::read_specimen(pairs, specimen)?;
    let counted = fit_accepted(specimen, usize::from(n), description);
    counted.answer
}
