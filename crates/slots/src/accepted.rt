// A description that is accepted.
ghost use Rattle.std.specs.Prelude.{◌≡◌, Ok};
ghost use Rattle.std.proofs.Props.{props};
ghost use Rattle.blocks.specs.Reading.{reading_of};
ghost use Rattle.blocks.specs.declared.Schema.{Schema};

// Its bytes, a caller's or in a buffer, and how many entries it has. What is accepted as one input is so as any.
#[derive(Clone, Copy)]
pub(crate) struct Accepted<'a> {
    pub bytes: &'a [u8],
    pub total: usize,
    ghost read: { reading_of Schema.Description 1 bytes.now ≡ Ok total } by { Prim.hlevel props },
}
