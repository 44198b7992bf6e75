// The library's calls for C and Rust [K4]: twenty-six functions under their plain names, each slice a pointer and a
// length. Each is total [K1] and has, for its result and each byte that it may write, the equation of the call that
// it wraps [K2], with the answer as one number of 64 bits [K5]; include/goltximen.h states the terms for a C program.
//
// Each contract has an equation, clause `answer`: the number and every byte of the output, by the definitions of the call and by Packing of
// `packing`, which has the table of these numbers. The clauses beside it say what that means:
// - `refuses`: it refuses exactly where a row of the table in Refusals of `answers` applies, by that row;
// - `keeps`: a refusal writes nothing;
// - `means`: what the other answers say of every finite record and of the bytes that are written;
// - `sheets`, of the narrowest description: that of two field sheets it is one.
// They are theorems of `answers`, and of `stored`, about the same definitions; each record that they name is in its specs/.
#![tactic(auto)]

ghost use Rattle.std.specs.Prelude.{◌≡◌, ℕ, Bool, List, [], Ok};
ghost use Rattle.answers.specs.Calls.{CountsPlainly, DecidedPlainly, FirstLine, FitsPlainly, NormalisesPlainly, NothingWritten, ReadExactly, RefusedExactly, Unfolds};
ghost use Rattle.answers.specs.Earning.{AskedRefused, Earns};
ghost use Rattle.answers.specs.Failing.{Fails};
ghost use Rattle.answers.specs.Items.{ItemsRefused, MarksItems};
ghost use Rattle.answers.specs.Missing.{Lacks, MissingRefused};
ghost use Rattle.answers.specs.Narrowest.{JoinsSheets, NarrowestRefused, Narrows};
ghost use Rattle.answers.specs.Promise.{ComparableNamed, DecidedNamed, Fills, FitsNamedExactly, JudgeableNamed, NormalisesNamed};
ghost use Rattle.answers.specs.Ranking.{HierarchyRefused, Ranks};
ghost use Rattle.answers.specs.Refusals.{CatalogueRefused, ComparisonRefused, FitRefused, NormalRefused, UnfoldRefused};
ghost use Rattle.blocks.specs.Reading.{reading_of};
ghost use Rattle.blocks.specs.declared.Schema.{Schema};
ghost use Rattle.catalogue.specs.Answer.{catalogue_of, filled_of};
ghost use Rattle.compare.specs.Promise.{Comparable};
ghost use Rattle.drafts.specs.Buffer.{after_at, answer_at, entry_numbered, held_at, output_at, run_at, write_at};
ghost use Rattle.drafts.specs.Draft.{empty, run};
ghost use Rattle.drafts.specs.Listed.{AllLeave};
ghost use Rattle.drafts.specs.Promise.{DeskRefused, Drafts, WriteRefused, WritesOut, Zeros};
ghost use Rattle.drafts.specs.declared.Call.{Call};
ghost use Rattle.earning.specs.Answer.{earned_of, earning_of};
ghost use Rattle.failings.specs.Answer.{failed_of, failing_of};
ghost use Rattle.fit.specs.Promise.{Judgeable};
ghost use Rattle.hierarchy.specs.Answer.{hierarchy_of, ranked_of};
ghost use Rattle.items.specs.Answer.{items_of, marked_of};
ghost use Rattle.missing.specs.Answer.{lacked_of, missing_of};
ghost use Rattle.missing.specs.declared.Lack.{Lack};
ghost use Rattle.named.specs.Answer.{compare_named, counted_named, fit_named, narrowed_named, narrowest_named, normalise_named, normalised_named, output_named};
ghost use Rattle.packing.specs.Packing.{pack_comparison, pack_counted, pack_fit, pack_lack, pack_reading};
ghost use Rattle.pairs.specs.Promise.{ListRead};
ghost use Rattle.sheets.specs.Promise.{SheetRead};
ghost use Rattle.sheets.specs.Sheet.{sheet_faults, sheet_reading};
ghost use Rattle.stored.specs.Answer.{restored_in, restored_of, stored_in, stored_of};
ghost use Rattle.stored.specs.Promise.{BothForms, RestoreRefused, Restores, StoreRefused, StoredExchange, Stores};
ghost use Rattle.unfolding.specs.Answer.{unfold_at, unfolded_at};

use drafts::Call;
use packing::{pack_comparison, pack_counted, pack_fit, pack_lack, pack_reading};

// Reads a description as input 1: its number of entries, or the refusal.
#[unsafe(no_mangle)]
pub extern "C" fn gx_read_description(d: &[u8]) -> u64
    ensures answer { result ≡ pack_reading (reading_of Schema.Description 1 d.now) }
    ensures exactly { ReadExactly Schema.Description d.now }
{
    pack_reading(reading::read_description(d))
}

// Reads a specimen as input 1: its number of entries, or the refusal.
#[unsafe(no_mangle)]
pub extern "C" fn gx_read_specimen(s: &[u8]) -> u64
    ensures answer { result ≡ pack_reading (reading_of Schema.Specimen 1 s.now) }
    ensures exactly { ReadExactly Schema.Specimen s.now }
{
    pack_reading(reading::read_specimen(s))
}

// Reads a field sheet as input 1: its number of entries, or the refusal, 19 at an entry that no sheet has.
#[unsafe(no_mangle)]
pub extern "C" fn gx_read_sheet(d: &[u8]) -> u64
    ensures answer { result ≡ pack_reading (sheet_reading d.now) }
    ensures refuses { RefusedExactly (sheet_reading d.now) (FirstLine (sheet_faults d.now)) }
    ensures means { SheetRead d.now }
{
    pack_reading(sheets::read_sheet(d))
}

// Writes the plain description that a description stands for under a dictionary from the start of the output: its number of entries, or the
// refusal.
#[unsafe(no_mangle)]
pub extern "C" fn gx_unfold(dict: &[u8], d: &[u8], out: &mut [u8]) -> u64
    ensures answer { (result ≡ pack_reading (unfold_at dict.now 1 d.now out.old)) × (out.new ≡ unfolded_at dict.now 1 d.now out.old) }
    ensures refuses { RefusedExactly (unfold_at dict.now 1 d.now out.old) (UnfoldRefused dict.now d.now out.old) }
    ensures keeps { NothingWritten (unfold_at dict.now 1 d.now out.old) (unfolded_at dict.now 1 d.now out.old) out.old }
    ensures means { (n : ℕ) → unfold_at dict.now 1 d.now out.old ≡ Ok n → Unfolds dict.now d.now out.old n }
{
    pack_reading(unfolding::unfold(dict, d, out))
}

// ---- with no pairs and no dictionary

// Whether the top item of a specimen, input 1, fits a description, input 2; or the refusal.
#[unsafe(no_mangle)]
pub extern "C" fn gx_fit(s: &[u8], d: &[u8]) -> u64
    ensures answer { result ≡ pack_fit (fit_named [] [] s.now d.now) }
    ensures refuses { RefusedExactly (fit_named [] [] s.now d.now) (FitRefused [] [] s.now d.now) }
    ensures means { Judgeable [] s.now d.now → FitsPlainly s.now d.now }
{
    pack_fit(named::fit_sent(&[], s, d))
}

// The same, with the additions of items that it took: in the walk over entries, and in making the table of totals.
#[unsafe(no_mangle)]
pub extern "C" fn gx_fit_counted(s: &[u8], d: &[u8]) -> u64
    ensures answer { result ≡ pack_counted (counted_named s.now d.now) }
    ensures refuses { RefusedExactly (fit_named [] [] s.now d.now) (FitRefused [] [] s.now d.now) }
    ensures means { Judgeable [] s.now d.now → CountsPlainly s.now d.now }
{
    pack_counted(named::fit_counted(s, d))
}

// Writes the normal form of a description from the start of the output: its number of entries, or the refusal.
#[unsafe(no_mangle)]
pub extern "C" fn gx_normal(d: &[u8], out: &mut [u8]) -> u64
    ensures answer { (result ≡ pack_reading (normalise_named [] [] d.now out.old)) × (out.new ≡ normalised_named [] [] d.now out.old) }
    ensures refuses { RefusedExactly (normalise_named [] [] d.now out.old) (NormalRefused [] [] d.now out.old) }
    ensures keeps { NothingWritten (normalise_named [] [] d.now out.old) (normalised_named [] [] d.now out.old) out.old }
    ensures means { (k : ℕ) → normalise_named [] [] d.now out.old ≡ Ok k → NormalisesPlainly d.now out.old k }
{
    pack_reading(named::normalise_sent(&[], d, out))
}

// Compares two descriptions: contained; not contained, and a specimen that shows it is written from the start of the output; or the
// refusal.
#[unsafe(no_mangle)]
pub extern "C" fn gx_compare(c: &[u8], d: &[u8], out: &mut [u8]) -> u64
    ensures answer { (result ≡ pack_comparison (compare_named [] [] c.now d.now out.old)) × (out.new ≡ output_named [] [] c.now d.now out.old) }
    ensures refuses { RefusedExactly (compare_named [] [] c.now d.now out.old) (ComparisonRefused [] [] c.now d.now out.old) }
    ensures keeps { NothingWritten (compare_named [] [] c.now d.now out.old) (output_named [] [] c.now d.now out.old) out.old }
    ensures means { Comparable c.now d.now out.old → DecidedPlainly c.now d.now out.old }
{
    pack_comparison(named::compare_sent(&[], c, d, out))
}

// ---- under a list of pairs [S14] and a dictionary

// Whether the top item of a specimen fits a description, where records keep a list of pairs; or the refusal.
#[unsafe(no_mangle)]
pub extern "C" fn gx_fit_with(pairs: &[u8], dict: &[u8], s: &[u8], d: &[u8]) -> u64
    ensures answer { result ≡ pack_fit (fit_named pairs.now dict.now s.now d.now) }
    ensures refuses { RefusedExactly (fit_named pairs.now dict.now s.now d.now) (FitRefused pairs.now dict.now s.now d.now) }
    ensures means { JudgeableNamed pairs.now dict.now s.now d.now → FitsNamedExactly pairs.now dict.now s.now d.now }
{
    pack_fit(named::fit(pairs, dict, s, d))
}

// Writes the normal form of a description: its number of entries, or the refusal.
#[unsafe(no_mangle)]
pub extern "C" fn gx_normal_with(pairs: &[u8], dict: &[u8], d: &[u8], out: &mut [u8]) -> u64
    ensures answer { (result ≡ pack_reading (normalise_named pairs.now dict.now d.now out.old))
        × (out.new ≡ normalised_named pairs.now dict.now d.now out.old) }
    ensures refuses { RefusedExactly (normalise_named pairs.now dict.now d.now out.old) (NormalRefused pairs.now dict.now d.now out.old) }
    ensures keeps { NothingWritten (normalise_named pairs.now dict.now d.now out.old) (normalised_named pairs.now dict.now d.now out.old) out.old }
    ensures means { (k : ℕ) → normalise_named pairs.now dict.now d.now out.old ≡ Ok k → NormalisesNamed pairs.now dict.now d.now out.old k }
{
    pack_reading(named::normalise(pairs, dict, d, out))
}

// Compares two descriptions: contained; not contained, and a specimen that shows it is written from the start of the output; or the
// refusal.
#[unsafe(no_mangle)]
pub extern "C" fn gx_compare_with(
    pairs: &[u8],
    dict: &[u8],
    c: &[u8],
    d: &[u8],
    out: &mut [u8],
) -> u64
    ensures answer { (result ≡ pack_comparison (compare_named pairs.now dict.now c.now d.now out.old))
        × (out.new ≡ output_named pairs.now dict.now c.now d.now out.old) }
    ensures refuses { RefusedExactly (compare_named pairs.now dict.now c.now d.now out.old) (ComparisonRefused pairs.now dict.now c.now d.now out.old) }
    ensures keeps { NothingWritten (compare_named pairs.now dict.now c.now d.now out.old) (output_named pairs.now dict.now c.now d.now out.old) out.old }
    ensures means { ListRead pairs.now → ComparableNamed dict.now c.now d.now out.old → DecidedNamed pairs.now dict.now c.now d.now out.old }
{
    pack_comparison(named::compare(pairs, dict, c, d, out))
}

// Writes the narrowest description that contains two, a, input 1, and b, input 2, from the start of the output: its number of entries, or the
// refusal.
#[unsafe(no_mangle)]
pub extern "C" fn gx_narrowest(pairs: &[u8], dict: &[u8], a: &[u8], b: &[u8], out: &mut [u8]) -> u64
    ensures answer { (result ≡ pack_reading (narrowest_named pairs.now dict.now a.now b.now out.old))
        × (out.new ≡ narrowed_named pairs.now dict.now a.now b.now out.old) }
    ensures refuses { RefusedExactly (narrowest_named pairs.now dict.now a.now b.now out.old) (NarrowestRefused pairs.now dict.now a.now b.now out.old) }
    ensures keeps { NothingWritten (narrowest_named pairs.now dict.now a.now b.now out.old) (narrowed_named pairs.now dict.now a.now b.now out.old) out.old }
    ensures means { (k : ℕ) → narrowest_named pairs.now dict.now a.now b.now out.old ≡ Ok k → Narrows pairs.now dict.now a.now b.now out.old k }
    ensures sheets { (k : ℕ) → narrowest_named pairs.now dict.now a.now b.now out.old ≡ Ok k → JoinsSheets pairs.now dict.now a.now b.now out.old k }
{
    pack_reading(named::narrowest(pairs, dict, a, b, out))
}

// Compares the supplier's description with each of a list of services laid end to end, and fills a byte for each: 1 contained, 0 not. The
// number of bytes filled, or the refusal.
#[unsafe(no_mangle)]
pub extern "C" fn gx_catalogue(
    pairs: &[u8],
    dict: &[u8],
    c: &[u8],
    list: &[u8],
    out: &mut [u8],
) -> u64
    ensures answer { (result ≡ pack_reading (catalogue_of pairs.now dict.now c.now list.now out.old))
        × (out.new ≡ filled_of pairs.now dict.now c.now list.now out.old) }
    ensures refuses { RefusedExactly (catalogue_of pairs.now dict.now c.now list.now out.old)
        (CatalogueRefused pairs.now dict.now c.now list.now out.old) }
    ensures keeps { NothingWritten (catalogue_of pairs.now dict.now c.now list.now out.old)
        (filled_of pairs.now dict.now c.now list.now out.old) out.old }
    ensures means { (n : ℕ) → catalogue_of pairs.now dict.now c.now list.now out.old ≡ Ok n
        → Fills pairs.now dict.now c.now list.now out.old n }
{
    pack_reading(catalogue::catalogue(pairs, dict, c, list, out))
}

// ---- under a list of pairs alone

// Ranks the services of a list laid end to end: writes, for n services, n rows of n bytes, 1 where the service of the row is contained in that of
// the column, else 0; n rows of n bytes more, 1 where that of the column is a direct superior of that of the row; and the class of each, the
// lowest position, from 1, of those that contain it and are contained in it. The number of bytes written, or the refusal.
#[unsafe(no_mangle)]
pub extern "C" fn gx_hierarchy(pairs: &[u8], list: &[u8], out: &mut [u8]) -> u64
    ensures answer { (result ≡ pack_reading (hierarchy_of pairs.now list.now out.old)) × (out.new ≡ ranked_of pairs.now list.now out.old) }
    ensures refuses { RefusedExactly (hierarchy_of pairs.now list.now out.old) (HierarchyRefused pairs.now list.now out.old) }
    ensures keeps { NothingWritten (hierarchy_of pairs.now list.now out.old) (ranked_of pairs.now list.now out.old) out.old }
    ensures means { (n : ℕ) → hierarchy_of pairs.now list.now out.old ≡ Ok n → Ranks pairs.now list.now out.old n }
{
    pack_reading(hierarchy::hierarchy(pairs, list, out))
}

// Marks the entries of the description c, input 1, that earn the yes for c and d, input 2: writes a byte for each entry of c, 1 for those that are
// left when leaving out is tried from the last to the first, and for their owners, else 0. Contained; not contained, with all bytes 0; or the
// refusal.
#[unsafe(no_mangle)]
pub extern "C" fn gx_earning(pairs: &[u8], c: &[u8], d: &[u8], out: &mut [u8]) -> u64
    ensures answer { (result ≡ pack_fit (earning_of pairs.now c.now d.now out.old)) × (out.new ≡ earned_of pairs.now c.now d.now out.old) }
    ensures refuses { RefusedExactly (earning_of pairs.now c.now d.now out.old) (AskedRefused pairs.now c.now d.now c.now out.old) }
    ensures keeps { NothingWritten (earning_of pairs.now c.now d.now out.old) (earned_of pairs.now c.now d.now out.old) out.old }
    ensures means { (yes : Bool) → earning_of pairs.now c.now d.now out.old ≡ Ok yes → Earns pairs.now c.now d.now out.old yes }
{
    pack_fit(earning::earning(pairs, c, d, out))
}

// Marks the entries of the description d, input 2, that fail for c, input 1, each by itself: writes a byte for each entry of d, 1 where c is not
// contained in that entry with its owners alone, else 0. Contained, with all bytes 0; not contained; or the refusal.
#[unsafe(no_mangle)]
pub extern "C" fn gx_failing(pairs: &[u8], c: &[u8], d: &[u8], out: &mut [u8]) -> u64
    ensures answer { (result ≡ pack_fit (failing_of pairs.now c.now d.now out.old)) × (out.new ≡ failed_of pairs.now c.now d.now out.old) }
    ensures refuses { RefusedExactly (failing_of pairs.now c.now d.now out.old) (AskedRefused pairs.now c.now d.now d.now out.old) }
    ensures keeps { NothingWritten (failing_of pairs.now c.now d.now out.old) (failed_of pairs.now c.now d.now out.old) out.old }
    ensures means { (yes : Bool) → failing_of pairs.now c.now d.now out.old ≡ Ok yes → Fails pairs.now c.now d.now out.old yes }
{
    pack_fit(failings::failing(pairs, c, d, out))
}

// Tells what the description c, input 1, lacks for d, input 2: writes a byte for each entry of d, 1 for those that are left when leaving out is tried
// from the last to the first, and for their owners, else 0. Nothing, with all bytes 0; what is to be added; that no item fits both; or the refusal.
#[unsafe(no_mangle)]
pub extern "C" fn gx_missing(pairs: &[u8], c: &[u8], d: &[u8], out: &mut [u8]) -> u64
    ensures answer { (result ≡ pack_lack (missing_of pairs.now c.now d.now out.old)) × (out.new ≡ lacked_of pairs.now c.now d.now out.old) }
    ensures refuses { RefusedExactly (missing_of pairs.now c.now d.now out.old) (MissingRefused pairs.now c.now d.now out.old) }
    ensures keeps { NothingWritten (missing_of pairs.now c.now d.now out.old) (lacked_of pairs.now c.now d.now out.old) out.old }
    ensures means { (a : Lack) → missing_of pairs.now c.now d.now out.old ≡ Ok a → Lacks pairs.now c.now d.now out.old a }
{
    pack_lack(missing::missing(pairs, c, d, out))
}

// ---- a drafting desk [O1] in one buffer; what is promised of it is proved in `drafts`

// Adds an entry at the end, its 8 bytes as a number, low byte first: how many entries are left, or the refusal.
#[unsafe(no_mangle)]
pub extern "C" fn gx_desk_add(buffer: &mut [u8], entry: u64) -> u64
    ensures answer { (result ≡ pack_reading (answer_at buffer.old (Call.Add (entry_numbered entry))))
        × (buffer.new ≡ after_at buffer.old (Call.Add (entry_numbered entry))) }
    ensures refuses { RefusedExactly (answer_at buffer.old (Call.Add (entry_numbered entry))) (DeskRefused buffer.old (Call.Add (entry_numbered entry))) }
    ensures keeps { NothingWritten (answer_at buffer.old (Call.Add (entry_numbered entry))) (after_at buffer.old (Call.Add (entry_numbered entry))) buffer.old }
    ensures means { (n : ℕ) → answer_at buffer.old (Call.Add (entry_numbered entry)) ≡ Ok n → Drafts buffer.old (Call.Add (entry_numbered entry)) n }
{
    pack_reading(desk::buffer::act(buffer, Call::Add(desk::buffer::entry_numbered(entry))))
}

// Takes off the last entry: how many entries are left, or the refusal.
#[unsafe(no_mangle)]
pub extern "C" fn gx_desk_take_off(buffer: &mut [u8]) -> u64
    ensures answer { (result ≡ pack_reading (answer_at buffer.old Call.TakeOff)) × (buffer.new ≡ after_at buffer.old Call.TakeOff) }
    ensures refuses { RefusedExactly (answer_at buffer.old Call.TakeOff) (DeskRefused buffer.old Call.TakeOff) }
    ensures keeps { NothingWritten (answer_at buffer.old Call.TakeOff) (after_at buffer.old Call.TakeOff) buffer.old }
    ensures means { (n : ℕ) → answer_at buffer.old Call.TakeOff ≡ Ok n → Drafts buffer.old Call.TakeOff n }
{
    pack_reading(desk::buffer::act(buffer, Call::TakeOff))
}

// Keeps the description under a number: how many entries it has, or the refusal.
#[unsafe(no_mangle)]
pub extern "C" fn gx_desk_name(buffer: &mut [u8], stand: u16) -> u64
    ensures answer { (result ≡ pack_reading (answer_at buffer.old (Call.Name stand))) × (buffer.new ≡ after_at buffer.old (Call.Name stand)) }
    ensures refuses { RefusedExactly (answer_at buffer.old (Call.Name stand)) (DeskRefused buffer.old (Call.Name stand)) }
    ensures keeps { NothingWritten (answer_at buffer.old (Call.Name stand)) (after_at buffer.old (Call.Name stand)) buffer.old }
    ensures means { (n : ℕ) → answer_at buffer.old (Call.Name stand) ≡ Ok n → Drafts buffer.old (Call.Name stand) n }
{
    pack_reading(desk::buffer::act(buffer, Call::Name(stand)))
}

// Goes back to the stand of a number: how many entries are left, or the refusal. `returns`: for every list of calls since the number was
// last given, none of which drops it, what is then held is what was held when it was given.
#[unsafe(no_mangle)]
pub extern "C" fn gx_desk_go_back(buffer: &mut [u8], stand: u16) -> u64
    ensures answer { (result ≡ pack_reading (answer_at buffer.old (Call.GoBack stand))) × (buffer.new ≡ after_at buffer.old (Call.GoBack stand)) }
    ensures refuses { RefusedExactly (answer_at buffer.old (Call.GoBack stand)) (DeskRefused buffer.old (Call.GoBack stand)) }
    ensures keeps { NothingWritten (answer_at buffer.old (Call.GoBack stand)) (after_at buffer.old (Call.GoBack stand)) buffer.old }
    ensures means { (n : ℕ) → answer_at buffer.old (Call.GoBack stand) ≡ Ok n → Drafts buffer.old (Call.GoBack stand) n }
    ensures returns { (b : List ℕ) (n : ℕ) (later : List Call) → answer_at b (Call.Name stand) ≡ Ok n → AllLeave stand later
        → buffer.old ≡ run_at (after_at b (Call.Name stand)) later → (result ≡ pack_reading (Ok n)) × ((held_at buffer.new).draft ≡ (held_at b).draft) }
{
    pack_reading(desk::buffer::act(buffer, Call::GoBack(stand)))
}

// Drops the stand of a number: how many entries the description has, or the refusal.
#[unsafe(no_mangle)]
pub extern "C" fn gx_desk_drop(buffer: &mut [u8], stand: u16) -> u64
    ensures answer { (result ≡ pack_reading (answer_at buffer.old (Call.Drop stand))) × (buffer.new ≡ after_at buffer.old (Call.Drop stand)) }
    ensures refuses { RefusedExactly (answer_at buffer.old (Call.Drop stand)) (DeskRefused buffer.old (Call.Drop stand)) }
    ensures keeps { NothingWritten (answer_at buffer.old (Call.Drop stand)) (after_at buffer.old (Call.Drop stand)) buffer.old }
    ensures means { (n : ℕ) → answer_at buffer.old (Call.Drop stand) ≡ Ok n → Drafts buffer.old (Call.Drop stand) n }
{
    pack_reading(desk::buffer::act(buffer, Call::Drop(stand)))
}

// Writes the description out in blocks from the start of the output: how many entries are written, or the refusal. `begins`: after any list
// of calls from a buffer of zeros, what is held is what these calls give from the empty desk.
#[unsafe(no_mangle)]
pub extern "C" fn gx_desk_write(buffer: &[u8], out: &mut [u8]) -> u64
    ensures answer { (result ≡ pack_reading (write_at buffer.now out.old)) × (out.new ≡ output_at buffer.now out.old) }
    ensures refuses { RefusedExactly (write_at buffer.now out.old) (WriteRefused buffer.now out.old) }
    ensures keeps { NothingWritten (write_at buffer.now out.old) (output_at buffer.now out.old) out.old }
    ensures means { (n : ℕ) → write_at buffer.now out.old ≡ Ok n → WritesOut buffer.now out.old n }
    ensures begins { (b : List ℕ) (calls : List Call) → Zeros b → buffer.now ≡ run_at b calls → held_at buffer.now ≡ run empty calls }
{
    pack_reading(desk::buffer::write_out(buffer, out))
}

// Judges each of the `total` items of a delivered record, input 1, by a description, input 2, where records keep a list of pairs, and fills a byte for
// each: 1 where it fits, else 0. The number of bytes filled, or the refusal.
#[unsafe(no_mangle)]
pub extern "C" fn gx_fit_all(
    pairs: &[u8],
    dict: &[u8],
    total: usize,
    delivered: &[u8],
    d: &[u8],
    out: &mut [u8],
) -> u64
    ensures answer { (result ≡ pack_reading (items_of pairs.now dict.now total delivered.now d.now out.old))
        × (out.new ≡ marked_of pairs.now dict.now total delivered.now d.now out.old) }
    ensures refuses { RefusedExactly (items_of pairs.now dict.now total delivered.now d.now out.old) (ItemsRefused pairs.now dict.now total delivered.now d.now out.old) }
    ensures keeps { NothingWritten (items_of pairs.now dict.now total delivered.now d.now out.old) (marked_of pairs.now dict.now total delivered.now d.now out.old) out.old }
    ensures means { (n : ℕ) → items_of pairs.now dict.now total delivered.now d.now out.old ≡ Ok n → MarksItems pairs.now dict.now total delivered.now d.now out.old n }
{
    pack_reading(items::fit_items(pairs, dict, total, delivered, d, out))
}

// ---- the shorter stored form

// Writes a description in the shorter stored form from the start of the output: its number of entries, or the refusal.
#[unsafe(no_mangle)]
pub extern "C" fn gx_to_stored(d: &[u8], out: &mut [u8]) -> u64
    ensures answer { (result ≡ pack_reading (stored_of d.now out.old)) × (out.new ≡ stored_in d.now out.old) }
    ensures refuses { RefusedExactly (stored_of d.now out.old) (StoreRefused d.now out.old) }
    ensures keeps { NothingWritten (stored_of d.now out.old) (stored_in d.now out.old) out.old }
    ensures means { (n : ℕ) → stored_of d.now out.old ≡ Ok n → Stores d.now out.old n }
{
    pack_reading(stored::to_stored(d, out))
}

// Writes the description that an input in the shorter stored form is, from the start of the output: its number of entries, or the refusal. Beside
// what that means stand two laws of the form: when two entries exchanged are refused, and which inputs are accepted in both forms.
#[unsafe(no_mangle)]
pub extern "C" fn gx_from_stored(s: &[u8], out: &mut [u8]) -> u64
    ensures answer { (result ≡ pack_reading (restored_of s.now out.old)) × (out.new ≡ restored_in s.now out.old) }
    ensures refuses { RefusedExactly (restored_of s.now out.old) (RestoreRefused s.now out.old) }
    ensures keeps { NothingWritten (restored_of s.now out.old) (restored_in s.now out.old) out.old }
    ensures means { (n : ℕ) → restored_of s.now out.old ≡ Ok n → Restores s.now out.old n }
    ensures exchanged { StoredExchange }
    ensures both { BothForms }
{
    pack_reading(stored::from_stored(s, out))
}
