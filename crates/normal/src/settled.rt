// The slots of a description, settled and put on the chains of their runs, as the last pass reads them.
ghost use Rattle.std.specs.Prelude.{◌≤◌, length};
ghost use Rattle.normal.specs.code.ClassRuns.{Chained, Runnable};

// What the last pass reads: the slots, which of their places have something to say, and for each run its last slot and for each slot the one
// before it in its run.
#[derive(Clone, Copy)]
pub(crate) struct Slots<'a> {
    pub(crate) table: &'a [u64],
    pub(crate) full: &'a [u8],
    pub(crate) last: &'a [u16],
    pub(crate) before: &'a [u16],
    ghost runnable: { Runnable table.now },
    ghost chained: { Chained table.now last.now before.now },
    ghost covered: { length table.now ≤ length full.now },
}

// What rows are written with, in tables that are lent: the chains of the runs, a run's tags in order, the rows, and the places that they lead
// to, each by the number of its slot, or in a specimen of crate compare by its code. Whoever lends it makes the tables in its own frame, there
// being no heap, and each size of them is another.
#[derive(Drop)]
pub struct Workspace<'a> {
    pub last: &'a mut [u16],
    pub before: &'a mut [u16],
    pub order: &'a mut [u64],
    pub rows: &'a mut [u64],
    pub below: &'a mut [u16],
}
