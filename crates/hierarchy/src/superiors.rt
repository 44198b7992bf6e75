// From the table of containment: which services strictly contain which, and which of these do so directly. A row is a word, so
// that a step is for 64 services.
ghost use Rattle.std.specs.Prelude.{◌≡◌, ◌<◌, ◌≤◌, ℕ, Bool};
ghost use Rattle.meaning.specs.Hierarchy.{some_below, strict};
ghost use Rattle.hierarchy.specs.code.Words.{Rows, Told, led, turned, uncovered};

use crate::table::has;

// Which services strictly contain which: those that contain one, and are not contained in it.
pub(crate) fn strict_rows(up: &[u64; 64], down: &[u64; 64], n: usize, above: &mut [u64; 64])
    requires { n ≤ 64 }
    ensures { (t : ℕ → ℕ → Bool) → Rows t n n up.now → Rows (turned t) n n down.now → Rows (strict t) n n above.new }
{
    for i in 0..n {
        above[i] = up[i] & !down[i];
    }
}

// What is above one of the services that are in a row.
fn covered_by(above: &[u64; 64], n: usize, row: u64) -> u64
    requires { n ≤ 64 }
    ensures { (s : ℕ → ℕ → Bool) (f : ℕ → Bool) → Rows s n n above.now → Told f n row → Told (λ j. some_below (led f s j) n) n result }
{
    let mut covered = 0;
    for k in 0..n {
        if has(row, k) {
            covered = above[k] | covered;
        }
    }
    covered
}

// Which are direct superiors of which, by those that are strict: they are above none of these.
pub(crate) fn direct_rows(above: &[u64; 64], n: usize, direct: &mut [u64; 64])
    requires { n ≤ 64 }
    ensures { (s : ℕ → ℕ → Bool) → Rows s n n above.now → Rows (uncovered s n) n n direct.new }
{
    for i in 0..n {
        direct[i] = above[i] & !covered_by(above, n, above[i]);
    }
}
