// The lines that the program prints, as data.
ghost use Rattle.std.specs.Prelude.{◌≡◌, ◌+◌};
ghost use Rattle.report.specs.Lines.{answer_line, specimen_line, specimen_lines};

use crate::Line;
use blocks::{Refusal, kinds};
use compare::NotContained;

// The first line: what the comparison answers.
pub(crate) fn answer_line(answer: Result<Option<NotContained>, Refusal>) -> Line
    ensures { result ≡ answer_line answer }
{
    match answer {
        Ok(None) => Line::Contained,
        Ok(Some(shown)) => Line::NotContained(shown.entry),
        Err(refusal) => Line::Refused(refusal),
    }
}

// How many lines follow the first: one for each specimen entry, and none where there is no specimen.
pub fn specimen_lines(answer: Result<Option<NotContained>, Refusal>) -> u16
    ensures { result ≡ specimen_lines answer }
{
    match answer {
        Ok(Some(shown)) => shown.entries,
        _ => 0,
    }
}

// How many items a stored number stands for: one more than it says.
fn items(number: u16) -> u32
    ensures { result ≡ number + 1 }
{
    u32::from(number) + 1
}

// The line of entry n of a specimen that stands in `blocks` and has `total` entries: an entry of kind 7 is a group and has one item
// more than its number says, any other is a property that its owner has. Entry 0 and entries above the total read as the zero entry.
#[tactic(auto, unfolding(crate::specs::Lines::specimen_line, crate::specs::Lines::entry_line))]
pub(crate) fn specimen_line(blocks: &[u8], total: usize, n: u16) -> Line
    ensures { result ≡ specimen_line blocks.now total n }
{
    let e = blocks::nth_entry(blocks, total, usize::from(n));
    if e.kind == kinds::GROUP {
        return Line::Group(n, e.owner, e.link(), items(e.number));
    }
    Line::Has(n, e.owner, e.property())
}
