// Unfolding: names become what they stand for, and a description of a dictionary is read once for all of its names.
//
// What a name stands for is put in from the dictionary's bytes where it comes first, and copied from there where it comes again. A description
// that names others is opened: its entries go to a table of those that are open, behind the name, which owns there what its top owns, and from
// there to the output one by one, a name among them by what it stands for. Names go to earlier descriptions only, so that none is opened while it
// is open. So the time grows with what is read and what is written, and not with how names are nested.
ghost use Rattle.std.specs.Prelude.{◌≡◌, [], ◌++◌, drop, get_or, map, ◌*◌, ◌+◌, ◌≤◌, length, take};
ghost use Rattle.blocks.specs.Entries.{entries_of};
ghost use Rattle.blocks.specs.code.Blockwise.{Whole};
ghost use Rattle.names.specs.NamedReading.{dictionary_of};
ghost use Rattle.names.specs.Promise.{LegalNamed};
ghost use Rattle.names.specs.Unfold.{contents, relocate, unfolded_by};
ghost use Rattle.names.specs.code.Passes.{inside};
ghost use Rattle.unfolding.specs.code.Replacing.{Laid, Opened, Same, pending};
ghost use Rattle.unfolding.specs.code.Rows.{greatest_name};

use crate::dictionary::Dictionary;
use crate::replace::{put_again, put_aside, put_part};
use crate::rows::Rows;
use blocks::sizes::{BLOCK, ENTRIES};
use blocks::{Entry, entries_in_order, kinds, word};

// Where what a name stands for is: after how many entries, and how many entries it has.
#[derive(Clone, Copy)]
pub(crate) struct Place {
    first: u16,
    count: u16,
}

// What unfolding one description needs beside its output: the entries of descriptions that are open; the new number of each of these that may own
// others; the same for a description as it is read; and where in the output what each name stands for is, if it is there.
#[derive(Drop)]
pub(crate) struct Opening {
    opened: Rows,
    number: [u16; 1137],
    inner: [u16; 1009],
    stood: [Option<Place>; 65],
}

// Puts in what description n has, straight from the dictionary's bytes, at the place of o: its entries, without names that stand for nothing.
// Their number is found as `entries_in` of crate reading finds it, which is not public.
fn put_described(dictionary: Dictionary, n: u16, o: u16, number: &mut [u16; 1009], out: &mut Rows)
    requires { (1 ≤ n) × (n ≤ length (dictionary_of dictionary.bytes.now)) × (length out.old + length (inside (dictionary_of dictionary.bytes.now) n) ≤ 1136) }
    ensures { out.new ≡ out.old ++ map (relocate (length out.old) o) (inside (dictionary_of dictionary.entry.bytes.now) n) }
{
    let part = dictionary.description(n);
    let last = part.len() / BLOCK - 1;
    let total = ENTRIES * last + usize::from(word(part, BLOCK * last + 2));
    put_part(part, total, dictionary.tables, o, number, out);
}

// Puts in what name n stands for, at the place of o: from where it stands already, or else from the dictionary's bytes.
#[cycle(put_name_put_first_put_opened)]
fn put_name(dictionary: Dictionary, n: u16, o: u16, opening: &mut Opening, out: &mut Rows)
    requires { (1 ≤ n) × (n ≤ length (dictionary_of dictionary.bytes.now)) × (o ≤ length out.old) × Laid (dictionary_of dictionary.bytes.now) opening.old out.old
        × (length out.old + length (contents (dictionary_of dictionary.bytes.now) n) ≤ 1008)
        × (length opening.old.opened + length (contents (dictionary_of dictionary.bytes.now) n) + 2 * n ≤ 1137) }
    ensures { (out.new ≡ out.old ++ map (relocate (length out.old) o) (contents (dictionary_of dictionary.entry.bytes.now) n))
        × Laid (dictionary_of dictionary.entry.bytes.now) opening.new out.new × Same (length opening.old.opened + 1) opening.old opening.new }
{
    if dictionary.tables.size(n) == 0 {
        return;
    }
    let i = usize::from(n);
    if let Some(place) = opening.stood[i] {
        put_again(out, usize::from(place.first), usize::from(place.count), o);
        return;
    }
    let m = out.len();
    put_first(dictionary, n, o, opening, out);
    opening.stood[i] = Some(Place {
        first: m as u16,
        count: (out.len() - m) as u16,
    });
}

// Puts in what name n stands for, at the place of o, from the dictionary's bytes: where names are left, it is opened.
#[cycle(put_name_put_first_put_opened)]
fn put_first(dictionary: Dictionary, n: u16, o: u16, opening: &mut Opening, out: &mut Rows)
    requires { (1 ≤ n) × (n ≤ length (dictionary_of dictionary.bytes.now)) × (o ≤ length out.old) × Laid (dictionary_of dictionary.bytes.now) opening.old out.old
        × (length out.old + length (contents (dictionary_of dictionary.bytes.now) n) ≤ 1008)
        × (length opening.old.opened + length (contents (dictionary_of dictionary.bytes.now) n) + 2 * n ≤ 1137) }
    ensures { (out.new ≡ out.old ++ map (relocate (length out.old) o) (contents (dictionary_of dictionary.entry.bytes.now) n))
        × Laid (dictionary_of dictionary.entry.bytes.now) opening.new out.new × Same (length opening.old.opened + 1) opening.old opening.new }
{
    let m = out.len();
    put_described(dictionary, n, o, &mut opening.inner, out);
    if !out.has_names_after(m) {
        return;
    }
    let at = opening.opened.len();
    opening.opened.push(Entry {
        kind: kinds::NAME,
        reserved: 0,
        owner: 0,
        name: n,
        number: 0,
    });
    opening.number[at + 1] = o;
    put_aside(out, m, &mut opening.opened);
    put_opened(dictionary, at + 1, opening, out);
    opening.opened.truncate(at);
}

// Puts in the entries that are open after the first ones, a name by what it stands for.
#[cycle(put_name_put_first_put_opened)]
fn put_opened(dictionary: Dictionary, first: usize, opening: &mut Opening, out: &mut Rows)
    requires { Opened (dictionary_of dictionary.bytes.now) first opening.old.opened × Laid (dictionary_of dictionary.bytes.now) opening.old out.old
        × (length (pending (contents (dictionary_of dictionary.bytes.now)) opening.old.opened (take (length opening.old.opened + 1) opening.old.number) first out.old) ≤ 1008)
        × (first + length (pending (contents (dictionary_of dictionary.bytes.now)) opening.old.opened (take (length opening.old.opened + 1) opening.old.number) first out.old)
        + 2 * greatest_name (drop first opening.old.opened) ≤ 1136 + length out.old) }
    ensures { (out.new ≡ pending (contents (dictionary_of dictionary.entry.bytes.now)) opening.old.opened (take (length opening.old.opened + 1) opening.old.number) first out.old)
        × Laid (dictionary_of dictionary.entry.bytes.now) opening.new out.new × Same (first + 1) opening.old opening.new }
{
    for i in first..opening.opened.len() {
        let e = opening.opened.at(i);
        let o = opening.number[usize::from(e.owner)];
        if e.kind == kinds::NAME {
            put_name(dictionary, e.name, o, opening, out);
        } else {
            out.push(Entry { owner: o, ..e });
            opening.number[i + 1] = out.len() as u16;
        }
    }
}

// Unfolds a description of `total` entries into an empty table: each entry as it stands, and a name by what it stands for.
pub(crate) fn unfold_rows(dictionary: Dictionary, d: &[u8], total: usize, rows: &mut Rows)
    requires { (total ≡ length (entries_of d.now)) × Whole d.now total × (total ≤ 1008) × (rows.old ≡ [])
        × LegalNamed (length (dictionary_of dictionary.bytes.now)) (entries_of d.now) × (length (unfolded_by (dictionary_of dictionary.bytes.now) (entries_of d.now)) ≤ 1008) }
    ensures { rows.new ≡ unfolded_by (dictionary_of dictionary.entry.bytes.now) (entries_of d.now) }
{
    let mut opening = Opening {
        opened: Rows::new(),
        number: [0; 1137],
        inner: [0; 1009],
        stood: [None; 65],
    };
    let mut number = [0u16; 1009];
    for (before, bytes) in entries_in_order(d, total).enumerate() {
        let e = Entry::from(bytes);
        let owner = number[usize::from(e.owner)];
        if e.kind == kinds::NAME {
            put_name(dictionary, e.name, owner, &mut opening, rows);
        } else {
            rows.push(Entry { owner, ..e });
            number[before + 1] = rows.len() as u16;
        }
    }
}
