// The path to the entry that fails: the links that lead to it, kept from the entry up, and the entry.
ghost use Rattle.std.specs.Prelude.{◌≡◌, ℕ, ◌≤◌, ◌<◌, get_or, set};

use blocks::{Entry, Link};

// The links are of the owners of the entry, nearest first. The array holds link numbers and nothing else: `link` and `keep_link` alone read
// and store them. They are no ArrayVec of the kit: the contracts speak of the array and of `depth` apart, as `up_from` does.
#[derive(Clone, Copy)]
pub(crate) struct Path {
    links: [u16; 32],
    depth: usize,
    pub(crate) entry: Entry,
    ghost short: { depth ≤ 32 },
}

impl Path {
    ghost use Rattle.std.specs.Prelude.{length};
    ghost use Rattle.blocks.specs.Entries.{entries_of, nth};
    ghost use Rattle.meaning.specs.Description.{links_to};
    ghost use Rattle.meaning.specs.Owned.{Owned};
    ghost use Rattle.compare.specs.code.Codes.{up_from};

    // How many links there are.
    pub(crate) fn depth(&self) -> usize
        ensures { result ≡ self.now.depth }
    {
        self.depth
    }

    // Link i of those that are kept.
    pub(crate) fn link(&self, i: usize) -> Link
        requires { i < 32 }
        ensures { result.0 ≡ get_or self.now.links i 0 }
    {
        Link(self.links[i])
    }

    // The path to entry n. Owners stand before what they own, so that no entry after n is looked at.
    pub(crate) fn to(d: &[u8], n: usize) -> Path
        requires { Owned (entries_of d.now) × (length (links_to (entries_of d.now) n) ≤ 32) × (1 ≤ n) × (n ≤ length (entries_of d.now)) }
        ensures { (result.entry ≡ nth (entries_of d.now) n) × (links_to (entries_of d.now) n ≡ up_from result.links result.depth) × ((i : ℕ) → get_or result.links i 0 < 65536) }
    {
        let entry = lent::entry_held(d, n, n);
        let mut links = [0u16; 32];
        let mut depth: usize = 0;
        // `while` and no `for`: the owner that comes next is read on the way.
        let mut o = usize::from(entry.owner);
        while o != 0 {
            let e = lent::entry_held(d, n, o);
            keep_link(&mut links, depth, e.link());
            depth += 1;
            o = usize::from(e.owner);
        }
        Path {
            links,
            depth,
            entry,
        }
    }
}

// Keeps a link as number i.
fn keep_link(links: &mut [u16; 32], i: usize, l: Link)
    requires { i < 32 }
    ensures { links.new ≡ set links.old i l.0 }
{
    links[i] = l.0;
}
