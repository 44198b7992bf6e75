// The answer, and the blocks that are written.
ghost use Rattle.std.specs.Prelude.{Err, ◌≡◌, ℕ, ◌+◌, ◌≤◌, ◌<◌, length, map, take};
ghost use Rattle.blocks.proofs.Refusing.Bounds.{AllBounded};
ghost use Rattle.blocks.specs.Reading.{reading_of};
ghost use Rattle.blocks.specs.Refusals.{refusal, unless_refused};
ghost use Rattle.blocks.specs.Words.{word_at};
ghost use Rattle.blocks.specs.declared.Refusal.{Refusal};
ghost use Rattle.blocks.specs.declared.Schema.TheVariants.{Description};
ghost use Rattle.logic.specs.Layout.{write};
ghost use Rattle.logic.specs.Normal.{is_bottom};
ghost use Rattle.narrowest.specs.Answer.{laid, narrowed_of, narrowest_of};
ghost use Rattle.narrowest.specs.code.Codes.{tree_by};
ghost use Rattle.narrowest.specs.code.Formed.{Formed, result_entries, result_place, room_for, top_of};
ghost use Rattle.narrowest.specs.code.Forms.{entries_in};
ghost use Rattle.narrowest.specs.code.Mates.{Joinable};
ghost use Rattle.narrowest.specs.code.Pushes.{Counted, row_number};
ghost use Rattle.normal.specs.code.Formed.{FormHeld, FormRows};
ghost use Rattle.pairs.specs.Promise.{ListRead};

use crate::form::{Form, entry_of_row, note_starts};
use crate::mates::Joining;
use blocks::{Cause, Refusal, kinds};
use pairs::{Exclusions, INDEX_BYTES};

impl Form<'_> {
    // Whether nothing fits it: its first entry says so.
    fn impossible(self) -> bool
        ensures { result ≡ is_bottom (top_of self.entry.rows.now) }
    {
        if self.rows.len() == 0 {
            return false;
        }
        entry_of_row(self.rows[0]).kind == kinds::NOTHING
    }

    // Its rows, put at the front of a table; returns how many they are.
    fn copy_rows(self, rows: &mut [u64]) -> usize
        requires { length self.rows.now ≤ length rows.old }
        ensures { Counted (length rows.old) rows.old 0 self.entry.rows.now rows.new result }
    {
        let n = self.rows.len();
        rows[..n].copy_from_slice(self.rows);
        n
    }
}

// The rows of two forms joined, which something fits; returns how many they are, or one more than there is room for.
fn joined_rows(pairs: &[u8], first: Form<'_>, second: Form<'_>, rows: &mut [u64]) -> usize
    requires { Joinable pairs.now first.rows.now second.rows.now × (length rows.old ≡ 1008) }
    ensures { Counted (length rows.old) rows.old 0
        (map row_number (write (tree_by pairs.now (entries_in first.entry.rows.now) (entries_in second.entry.rows.now) 0))) rows.new result }
{
    let mut index = [0u8; INDEX_BYTES];
    let mut mates = [0u16; 1009];
    let mut order = [0u64; 1136];
    let mut below = [0u32; 1009];
    let joining = Joining {
        first,
        second,
        exclusions: Exclusions::new(pairs, &mut index),
    };
    joining.find_mates(&mut mates);
    joining.drop_empty(&mut mates);
    joining.write_rows(&mates, &mut order, rows, &mut below)
}

// The rows of the result: where nothing fits one form, those of the other.
fn result_rows(pairs: &[u8], first: Form<'_>, second: Form<'_>, rows: &mut [u64]) -> usize
    requires { ListRead pairs.now × ((i : ℕ) → word_at pairs.now i < 65536) × Formed pairs.now first.rows.now × Formed pairs.now second.rows.now
        × (length rows.old ≡ 1008) }
    ensures { Counted (length rows.old) rows.old 0
        (map row_number (write (result_place pairs.now first.entry.rows.now second.entry.rows.now))) rows.new result }
{
    if first.impossible() {
        return second.copy_rows(rows);
    }
    if second.impossible() {
        return first.copy_rows(rows);
    }
    joined_rows(pairs, first, second, rows)
}

// The refusal by a number, of an input at place 0.
fn refusal(cause: Cause, input: u16) -> Refusal
    ensures { result ≡ refusal cause input 0 }
{
    Refusal {
        cause,
        input,
        place: 0,
    }
}

// Writes the result of two forms, or answers 7 where it is no description or does not fit the output.
fn write_result(
    pairs: &[u8],
    first: Form<'_>,
    second: Form<'_>,
    out: &mut [u8],
) -> Result<u16, Refusal>
    requires { ListRead pairs.now × ((i : ℕ) → word_at pairs.now i < 65536) × Formed pairs.now first.rows.now × Formed pairs.now second.rows.now
        × (length (result_entries pairs.now first.rows.now second.rows.now) ≤ 1008
        → AllBounded (result_entries pairs.now first.rows.now second.rows.now)) }
    ensures { (result ≡ room_for out.old (result_entries pairs.now first.entry.rows.now second.entry.rows.now))
        × (out.new ≡ unless_refused (λ e. out.old) (room_for out.old (result_entries pairs.now first.entry.rows.now second.entry.rows.now))
        (laid (result_entries pairs.now first.entry.rows.now second.entry.rows.now) out.old)) }
{
    let mut rows = [0u64; 1008];
    let count = result_rows(pairs, first, second, &mut rows);
    if 1008 < count {
        return Err(refusal(Cause::Room, 0));
    }
    if out.len() < writing::bytes_for(count as u16) {
        return Err(refusal(Cause::Room, 0));
    }
    writing::write_entries(out, &rows, count);
    Ok(count as u16)
}

// The normal form of a description, of so many rows of a table, with the starts of its places in another.
fn formed<'a>(
    pairs: &[u8],
    description: &[u8],
    table: &'a [u64; 1008],
    count: u16,
    starts: &'a mut [u16; 1009],
) -> Form<'a>
    requires { FormRows pairs.now description.now count table.now }
    ensures { result.rows.now ≡ take count table.now }
{
    let rows = &table[..usize::from(count)];
    note_starts(rows, starts);
    Form { rows, starts }
}

// The rows of the normal form of the second description, refused as input 2, where the list is read.
fn second_rows(pairs: &[u8], description: &[u8], rows: &mut [u64; 1008]) -> Result<u16, Refusal>
    requires { ListRead pairs.now }
    ensures held { FormHeld pairs.now description.now result rows.new }
    ensures refused { (e : Refusal) → result ≡ Err e → reading_of Description 2 description.now ≡ Err e }
{
    match normal::form_rows(pairs, description, rows) {
        Ok(count) => Ok(count),
        Err(e) => Err(Refusal {
            cause: e.cause,
            input: 2,
            place: e.place,
        }),
    }
}

// Writes the narrowest description that contains two, in blocks from the start of the output, and returns its number of entries, at most
// 1,008; later bytes stay. Refused, in this order: the list, as 11; the first description, as input 1; the second, as input 2; 1 of input 2, at
// place 0, where both together have more than 16 blocks; 7 where the output is shorter than both; 7 where the result has more than 1,008 entries, or
// does not fit the output. No byte changes where anything is refused.
pub fn narrowest(pairs: &[u8], a: &[u8], b: &[u8], out: &mut [u8]) -> Result<u16, Refusal>
    ensures { (result ≡ narrowest_of pairs.now a.now b.now out.old) × (out.new ≡ narrowed_of pairs.now a.now b.now out.old) }
{
    let mut first = [0u64; 1008];
    let n = normal::form_rows(pairs, a, &mut first)?;
    let mut second = [0u64; 1008];
    let m = second_rows(pairs, b, &mut second)?;
    if 8192 < a.len() + b.len() {
        return Err(refusal(Cause::Length, 2));
    }
    if out.len() < a.len() + b.len() {
        return Err(refusal(Cause::Room, 0));
    }
    let mut first_starts = [0u16; 1009];
    let mut second_starts = [0u16; 1009];
    write_result(
        pairs,
        formed(pairs, a, &first, n, &mut first_starts),
        formed(pairs, b, &second, m, &mut second_starts),
        out,
    )
}
