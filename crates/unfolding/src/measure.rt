// The entries of a description, gone over once: whether the rules allow them, how many they are once unfolded, and how deep they stand, worked
// out from what its names stand for.
ghost use Rattle.std.specs.Prelude.{◌≡◌, true, ◌-◌, ◌≤◌, ◌<◌, length};
ghost use Rattle.blocks.specs.Entries.{entries_of, is_named};
ghost use Rattle.blocks.specs.code.Blockwise.{Whole};
ghost use Rattle.blocks.specs.code.ReadingSteps.{entry_refusal};
ghost use Rattle.blocks.specs.declared.Schema.{Schema};
ghost use Rattle.names.specs.Measures.{under};
ghost use Rattle.unfolding.specs.code.Checking.{CheckedAll};
ghost use Rattle.unfolding.specs.code.Known.{levels_in, size_in};

use crate::Extent;
use crate::tables::Tables;
use blocks::{Cause, Entry, Refusal, Schema, entries_in_order, kinds};
use reading::{entry_refusal, level_under, owner_level};

// The levels put in below an owner of level l: no level is none at any depth.
fn under_level(l: u8, k: u8) -> usize
    requires { 1 ≤ l }
    ensures { result ≡ under (l - 1) k }
{
    let d = usize::from(l) - 1;
    if k == 0 { 0 } else { d + usize::from(k) }
}

// Why a name is refused whose owner has level l, if it is, where the first `most` of a dictionary may be named.
#[tactic(auto, using(crate::proofs::Measuring::name_rules, std::proofs::lemmas::Bool::Decides::nat_tests))]
fn name_refusal(most: u16, e: Entry, l: u8) -> Option<Cause>
    requires { is_named e ≡ true }
    ensures { result ≡ entry_refusal (Schema.Named most) e l }
{
    if e.reserved != 0 {
        return Some(Cause::Form);
    }
    if e.number != 0 {
        return Some(Cause::Form);
    }
    if e.name == 0 {
        return Some(Cause::Name);
    }
    if most < e.name {
        return Some(Cause::Name);
    }
    if l == 0 {
        return Some(Cause::Owner);
    }
    if 33 < l {
        return Some(Cause::Depth);
    }
    None
}

// Goes over the `total` entries of a description, with a table that has room for the level of each, as for reading. Names are told from other
// entries before anything else, so that each is tested for its own rules only. Inlined into both sizes of its table: one copy for both takes a
// tenth to a fifth longer to unfold descriptions of some names.
#[inline(always)]
fn check_entries(
    s: &[u8],
    total: usize,
    tables: &Tables,
    level: &mut [u8],
    input: u16,
) -> Result<Extent, Refusal>
    requires { (total ≡ length (entries_of s.now)) × (total ≤ 1008) × Whole s.now total × (total < length level.old) }
    ensures { CheckedAll tables.now.count (size_in tables.now.of) (levels_in tables.now.of) (entries_of s.now) total input result }
{
    level[0] = 1;
    let mut had: usize = 0;
    let mut deep: usize = 0;
    for (before, bytes) in entries_in_order(s, total).enumerate() {
        let e = Entry::from(bytes);
        let n = before + 1;
        let l = owner_level(&level[..n], e.owner);
        if e.kind == kinds::NAME {
            if let Some(cause) = name_refusal(tables.count, e, l) {
                return Err(Refusal {
                    cause,
                    input,
                    place: n as u16,
                });
            }
            had += usize::from(tables.size(e.name));
            deep = deep.max(under_level(l, tables.levels(e.name)));
            level[n] = 0;
        } else {
            if let Some(cause) = entry_refusal(Schema::Description, e, l) {
                return Err(Refusal {
                    cause,
                    input,
                    place: n as u16,
                });
            }
            had += 1;
            deep = deep.max(usize::from(l));
            level[n] = level_under(Schema::Description, e.kind, l);
        }
    }
    Ok(Extent {
        size: had,
        levels: deep,
    })
}

// The same with a table of N levels.
fn check_within<const N: usize>(
    s: &[u8],
    total: usize,
    tables: &Tables,
    input: u16,
) -> Result<Extent, Refusal>
    requires { (total ≡ length (entries_of s.now)) × (total ≤ 1008) × Whole s.now total × (total < N) × (N ≤ 1009) }
    ensures { CheckedAll tables.now.count (size_in tables.now.of) (levels_in tables.now.of) (entries_of s.now) total input result }
{
    let mut level = [0u8; N];
    check_entries(s, total, tables, &mut level, input)
}

// Goes over the `total` entries of a description that may name those of a dictionary that are read. Few entries take a small table, which is
// sooner cleared.
pub(crate) fn check(s: &[u8], total: usize, tables: &Tables, input: u16) -> Result<Extent, Refusal>
    requires { (total ≡ length (entries_of s.now)) × (total ≤ 1008) × Whole s.now total }
    ensures { CheckedAll tables.now.count (size_in tables.now.of) (levels_in tables.now.of) (entries_of s.now) total input result }
{
    if total < 64 {
        return check_within::<64>(s, total, tables, input);
    }
    check_within::<1009>(s, total, tables, input)
}
