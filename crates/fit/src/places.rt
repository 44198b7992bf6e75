// A description with its index, a bucket for each place, and the marks of the places that an item with nothing does not fit.
ghost use Rattle.std.specs.Prelude.{◌≡◌, ◌<◌, ◌≤◌, eqb, get_or, length, not};
ghost use Rattle.blocks.specs.Entries.{entries_of};
ghost use Rattle.blocks.specs.declared.Schema.{Schema};
ghost use Rattle.fit.specs.code.Bare.{Marked, bare_fits, demands};
ghost use Rattle.fit.specs.code.Chains.{ComesTo};
ghost use Rattle.fit.specs.code.Index.{Ready};

use crate::chain::Chain;

#[derive(Clone, Copy)]
pub(crate) struct Places<'a> {
    pub bytes: &'a [u8],
    pub index: &'a [u16],
    pub marks: &'a [bool],
    pub most: usize,
    ghost ready: { Ready Schema.Description most bytes.now index.now },
    ghost marked: { Marked demands (entries_of bytes.now) (length (entries_of bytes.now)) most marks.now },
}

impl<'a> Places<'a> {
    // The entries of the place that entry o owns, from the last back.
    #[inline(always)]
    #[tactic(auto, using(crate::proofs::index::BucketWalk::falls_bucket))]
    pub(crate) fn entries(&self, o: usize) -> Chain<'a>
        requires { o < self.now.most }
        ensures { ComesTo self.now.index.now self.now.most (get_or self.now.index.now o 0) result }
    {
        Chain::of_bucket(self.index, self.most, o)
    }

    // Whether an item with nothing does not fit the place that entry o owns.
    #[inline(always)]
    pub(crate) fn demands(&self, o: usize) -> bool
        requires { o < self.now.most }
        ensures { result ≡ not (bare_fits (entries_of self.now.bytes.now) o) }
    {
        self.marks[o]
    }
}
