// Services that contain each other form a class, shown by the lowest of their positions.
ghost use Rattle.std.specs.Prelude.{◌≡◌, ◌≤◌, ◌+◌, ◌-◌, ℕ, Bool, length, not};
ghost use Rattle.base.proofs.Lists.{listed};
ghost use Rattle.base.specs.Search.{first_from};
ghost use Rattle.base.specs.Stores.{stored};
ghost use Rattle.meaning.specs.Hierarchy.{class_of};
ghost use Rattle.hierarchy.specs.code.Words.{Rows, Told, turned};

// The lowest position, from 1, of the services that a word tells; 0 where there is none.
fn lowest(word: u64) -> u8
    ensures { (f : ℕ → Bool) (n : ℕ) → n ≤ 64 → Told f n word → result ≡ first_from (λ k. not (f (k - 1))) 1 n }
{
    if word == 0 {
        return 0;
    }
    (word.trailing_zeros() + 1) as u8
}

// Writes the class of each of n services from a place of the output on: the lowest of those that contain it and are contained in it.
pub(crate) fn put_classes(up: &[u64; 64], down: &[u64; 64], n: usize, out: &mut [u8], at: usize)
    requires { (n ≤ 64) × (at + n ≤ length out.old) }
    ensures { (t : ℕ → ℕ → Bool) → Rows t n n up.now → Rows (turned t) n n down.now → out.new ≡ stored out.old at (listed (class_of t n) 0 n) }
{
    for i in 0..n {
        out[at + i] = lowest(up[i] & down[i]);
    }
}
