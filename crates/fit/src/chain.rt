// The numbers of one bucket, from the last back: each points to the one before it. In the tables, of fixed memory, 0 stands for none; who walks
// along a chain gets an Option.
ghost use Rattle.std.specs.Prelude.{◌≡◌, ◌<◌, get_or, length};
ghost use Rattle.std.specs.Iterator.{at_most};
ghost use Rattle.fit.specs.code.Index.{Falls, StepsBack};

// The table has the last number of each bucket, of `most`, and after them the number before each; `next` is the one to come to, or 0.
#[derive(Clone, Copy)]
pub(crate) struct Chain<'a> {
    table: &'a [u16],
    most: usize,
    next: usize,
    ghost falls: { Falls most table.now next },
}

impl<'a> Chain<'a> {
    // The chain of bucket b.
    #[inline(always)]
    pub(crate) fn of_bucket(table: &'a [u16], most: usize, b: usize) -> Chain<'a>
        requires { (b < length table.now) × Falls most table.now (get_or table.now b 0) }
        ensures { (result.table.now ≡ table.now) × (result.most ≡ most) × (result.next ≡ get_or table.now b 0) }
    {
        Chain {
            table,
            most,
            next: usize::from(table[b]),
        }
    }
}

impl<'a> Iterator for Chain<'a> {
    type Item = usize;

    ghost next_gives = { λ s r t. StepsBack s.table.now s.most s.next r t.table.now t.most t.next };

    ghost remaining = { λ s. at_most s.next };

    #[inline(always)]
    fn next(&mut self) -> Option<usize> {
        if self.next == 0 {
            return None;
        }
        let k = self.next;
        self.next = usize::from(self.table[self.most + k]);
        Some(k)
    }
}
