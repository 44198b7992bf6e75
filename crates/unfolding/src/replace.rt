// Putting in the entries of a description: straight from its bytes, without names that stand for nothing, where owners get their new
// numbers by a table; and again, from where they were put in before.
ghost use Rattle.std.specs.Prelude.{◌≡◌, cond, true, ◌++◌, map, ◌+◌, ◌-◌, ◌≤◌, ◌<◌, ℕ, leb, get_or, length, take};
ghost use Rattle.base.proofs.Lists.{listed};
ghost use Rattle.blocks.specs.Entries.{entries_of, is_named, zero_entry};
ghost use Rattle.blocks.specs.code.Blockwise.{Whole};
ghost use Rattle.names.specs.NamedForm.{named_form_ok};
ghost use Rattle.names.specs.Promise.{FormsOk, OwnersOk};
ghost use Rattle.names.specs.Unfold.{relocate, unfolded};
ghost use Rattle.names.specs.code.Passes.{kept_by};
ghost use Rattle.unfolding.specs.code.Known.{size_in};
ghost use Rattle.unfolding.specs.code.Replacing.{NamesFew, again};

use crate::rows::Rows;
use crate::tables::Tables;
use blocks::{Entry, entries_in_order, kinds};

// Puts in a name, at the place of o, if it stands for something.
fn keep_name(e: Entry, o: u16, tables: &Tables, out: &mut Rows)
    requires { (is_named e ≡ true) × (named_form_ok e ≡ true) × (e.name ≤ 64) × (length out.old + length (kept_by (size_in tables.now.of) e.name) ≤ 1136) }
    ensures { out.new ≡ out.old ++ map (relocate (length out.old) o) (kept_by (size_in tables.now.of) e.name) }
{
    if tables.size(e.name) == 0 {
        return;
    }
    out.push(Entry { owner: o, ..e });
}

// Puts in the `total` entries of a description, at the place of o, without names that stand for nothing. The table is for the new numbers of
// owners.
pub(crate) fn put_part(
    s: &[u8],
    total: usize,
    tables: &Tables,
    o: u16,
    number: &mut [u16; 1009],
    out: &mut Rows,
)
    requires { (total ≡ length (entries_of s.now)) × Whole s.now total × (total ≤ 1008) × FormsOk (entries_of s.now) × OwnersOk (entries_of s.now) × NamesFew (entries_of s.now)
        × (length out.old + length (unfolded (kept_by (size_in tables.now.of)) (entries_of s.now)) ≤ 1136) }
    ensures { out.new ≡ out.old ++ map (relocate (length out.old) o) (unfolded (kept_by (size_in tables.now.of)) (entries_of s.now)) }
{
    number[0] = o;
    for (before, bytes) in entries_in_order(s, total).enumerate() {
        let e = Entry::from(bytes);
        let owner = number[usize::from(e.owner)];
        if e.kind == kinds::NAME {
            keep_name(e, owner, tables, out);
        } else {
            out.push(Entry { owner, ..e });
            number[before + 1] = out.len() as u16;
        }
    }
}

// The number of an owner, where contents that were put in after p entries are put in again after m, at the place of o.
fn owner_again(q: u16, p: usize, m: usize, o: u16) -> u16
    requires { m + (q - p) < 65536 }
    ensures { result ≡ cond (leb q p) o (m + (q - p)) }
{
    let owner = usize::from(q);
    if owner <= p {
        return o;
    }
    (m + (owner - p)) as u16
}

// Puts in again, at the place of o, the k entries that were put in after the first p.
pub(crate) fn put_again(out: &mut Rows, p: usize, k: usize, o: u16)
    requires { (p + k ≤ length out.old) × (length out.old + k ≤ 1136) × ((j : ℕ) → j < k → (get_or out.old (p + j) zero_entry).owner ≤ p + k) }
    ensures { out.new ≡ out.old ++ listed (λ i. again p (length out.old) o (get_or out.old i zero_entry)) p k }
{
    let m = out.len();
    for j in 0..k {
        let e = out.at(p + j);
        let owner = owner_again(e.owner, p, m, o);
        out.push(Entry { owner, ..e });
    }
}

// Takes what a table has after its first m entries to another, where its last entry owns what stands for nothing else's.
pub(crate) fn put_aside(out: &mut Rows, m: usize, aside: &mut Rows)
    requires { (m ≤ length out.old) × (length aside.old + (length out.old - m) ≤ 1136) × ((j : ℕ) → j < length out.old - m → (get_or out.old (m + j) zero_entry).owner ≤ length out.old) }
    ensures { (out.new ≡ take m out.old) × (aside.new ≡ aside.old ++ listed (λ i. again m (length aside.old) (length aside.old) (get_or out.old i zero_entry)) m (length out.old - m)) }
{
    let first = aside.len();
    for j in 0..out.len() - m {
        let e = out.at(m + j);
        let owner = owner_again(e.owner, m, first, first as u16);
        aside.push(Entry { owner, ..e });
    }
    out.truncate(m);
}
