// The slots of the first description, settled and put on the chains of their runs.
ghost use Rattle.slots.specs.code.TablePlaces.{Stood};
ghost use Rattle.std.proofs.Props.{props};
ghost use Rattle.compare.specs.code.PlaceCode.{place_coded};
ghost use Rattle.normal.specs.code.ClassRuns.{Chained};

// What the specimen is written from: the slots, and for each run its last slot and for each slot the one before it in its run. A struct of its
// own beside that of crate normal: no specimen asks which places have something to say, and of its slots it is known what the places list. The
// chains, which both have, are said once, in normal.
#[derive(Clone, Copy)]
pub(crate) struct Slots<'a> {
    pub(crate) table: &'a [u64],
    pub(crate) last: &'a [u16],
    pub(crate) before: &'a [u16],
    ghost stood: { Stood table.now } by { Prim.hlevel (props, place_coded) },
    ghost chained: { Chained table.now last.now before.now },
}
