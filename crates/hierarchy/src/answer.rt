// The call: the table of containment, the direct superiors and the classes, written all or not at all.
ghost use Rattle.std.specs.Prelude.{◌≡◌, ◌≤◌, ◌+◌, ◌*◌, ℕ, length};
ghost use Rattle.base.specs.Stores.{stored};
ghost use Rattle.hierarchy.specs.Answer.{hierarchy_of, hierarchy_size, ranked_of, ranks};
ghost use Rattle.hierarchy.specs.code.Words.{Flat, cell};

use crate::classes::put_classes;
use crate::superiors::{direct_rows, strict_rows};
use crate::table::{gather_rows, put_rows};
use blocks::{Cause, Refusal};

// Writes what is read off the table of n services.
fn write_ranks(table: &[u8; 4096], n: usize, out: &mut [u8])
    requires { (n ≤ 64) × (hierarchy_size n ≤ length out.old) × Flat n table.now }
    ensures { out.new ≡ stored out.old 0 (ranks (cell table.now) n) }
{
    let mut up = [0u64; 64];
    let mut down = [0u64; 64];
    let mut above = [0u64; 64];
    let mut direct = [0u64; 64];
    gather_rows(table, n, &mut up, &mut down);
    strict_rows(&up, &down, n, &mut above);
    direct_rows(&above, n, &mut direct);
    let behind_table = put_rows(&up, n, out, 0);
    let behind_direct = put_rows(&direct, n, out, behind_table);
    put_classes(&up, &down, n, out, behind_direct);
}

/// Ranks the 1 to 64 services of a list, laid end to end, under a list of pairs. For n services it writes, from the start of the output, n rows
/// of n bytes, of which byte j of row i is 1 where service i is contained in service j, else 0; n rows more, in which it is 1 where j is a
/// direct superior of i: it strictly contains i, and no third stands strictly between; and n bytes, the class of each service, which is the
/// lowest position, from 1, of those that contain it and are contained in it. Later bytes stay. Returns the number of bytes written.
///
/// Refused, the first that applies: the pairs; the list, as input 2; each service in full, as input 1 plus its position; an output shorter than
/// what is written. A refusal writes nothing.
pub fn hierarchy(pairs: &[u8], list: &[u8], out: &mut [u8]) -> Result<u16, Refusal>
    ensures { (result ≡ hierarchy_of pairs.now list.now out.old) × (out.new ≡ ranked_of pairs.now list.now out.old) }
{
    let mut table = [0u8; 4096];
    let count = slots::contained_table(pairs, list, &mut table)?;
    let n = usize::from(count);
    let size = 2 * (n * n) + n;
    if out.len() < size {
        return Err(Refusal {
            cause: Cause::Room,
            input: 0,
            place: 0,
        });
    }
    write_ranks(&table, n, out);
    Ok(size as u16)
}
