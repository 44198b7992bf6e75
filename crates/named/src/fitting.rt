// The fit answer for a description that may name those of a dictionary.
ghost use Rattle.std.specs.Prelude.{◌≡◌, [], ◌<◌, ◌≤◌, length};
ghost use Rattle.blocks.specs.Refusals.{unless_refused};
ghost use Rattle.clashes.specs.Clash.{specimen_reading};
ghost use Rattle.named.specs.Answer.{counted_named, fit_named};
ghost use Rattle.named.specs.code.Sent.{ListTaken, sent_by};

use crate::sent::sent_as;
use blocks::Refusal;
use fit::Counted;
use unfolding::unfold_into;
use writing::bytes_for;

// The answer where no name can be given, by that for a plain description.
fn answer_sent(d: &[u8], answer: Result<bool, Refusal>) -> Result<bool, Refusal>
    ensures { result ≡ sent_by d.now 2 answer }
{
    answer.map_err(|e| sent_as(d, 2, e))
}

// With a dictionary of length 0: as it is sent.
pub fn fit_sent(pairs: &[u8], s: &[u8], d: &[u8]) -> Result<bool, Refusal>
    ensures { result ≡ fit_named pairs.now [] s.now d.now }
{
    answer_sent(d, fit::fit(pairs, s, d))
}

// The same without pairs, with the additions of items that it took: in making the table of totals, and in the walk over entries.
pub fn fit_counted(s: &[u8], d: &[u8]) -> Counted
    ensures { result ≡ counted_named s.now d.now }
{
    let counted = fit::fit_counted(s, d);
    let answer = counted.answer;
    let sent = answer_sent(d, answer);
    Counted {
        answer: sent,
        table: counted.table,
        walk: counted.walk,
    }
}

// A refusal of the description: the specimen comes before it.
fn specimen_first(pairs: &[u8], s: &[u8], e: Refusal) -> Result<bool, Refusal>
    ensures { result ≡ unless_refused Err (specimen_reading pairs.now s.now) (Err e) }
{
    clashes::read_specimen(pairs, s)?;
    Err(e)
}

// Under a list that is accepted and a dictionary that is not of length 0, with a buffer that has room for every description. The
// dictionary's refusals, whose input is 100 or more, come before the specimen's, and those before the description's.
fn fit_unfolded(
    pairs: &[u8],
    dictionary: &[u8],
    s: &[u8],
    d: &[u8],
    buffer: &mut [u8],
) -> Result<bool, Refusal>
    requires { (0 < length dictionary.now) × ListTaken pairs.now × (8192 ≤ length buffer.old) }
    ensures { result ≡ fit_named pairs.now dictionary.now s.now d.now }
{
    let reading = unfold_into(dictionary, d, 2, buffer);
    match reading {
        Err(e) => {
            if 100 <= e.input {
                return Err(e);
            }
            specimen_first(pairs, s, e)
        }
        Ok(n) => {
            let end = bytes_for(n);
            fit::fit(pairs, s, &buffer[..end])
        }
    }
}

// The same with a buffer of its own.
fn fit_named(pairs: &[u8], dictionary: &[u8], s: &[u8], d: &[u8]) -> Result<bool, Refusal>
    requires { (0 < length dictionary.now) × ListTaken pairs.now }
    ensures { result ≡ fit_named pairs.now dictionary.now s.now d.now }
{
    let mut buffer = [0u8; 8192];
    fit_unfolded(pairs, dictionary, s, d, &mut buffer)
}

// Whether the top item of a specimen, input 1, fits a description, input 2, under a list of pairs and a dictionary: as for the unfolded one.
pub fn fit(
    pairs: &[u8],
    dictionary: &[u8],
    specimen: &[u8],
    description: &[u8],
) -> Result<bool, Refusal>
    ensures { result ≡ fit_named pairs.now dictionary.now specimen.now description.now }
{
    if dictionary.is_empty() {
        return fit_sent(pairs, specimen, description);
    }
    pairs::read_pairs(pairs)?;
    fit_named(pairs, dictionary, specimen, description)
}
