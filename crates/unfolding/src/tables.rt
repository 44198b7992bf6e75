// What is kept of the descriptions of a dictionary, found by their names.
ghost use Rattle.std.specs.Prelude.{◌≤◌};

// Of one description: where its bytes begin, how many entries it has once unfolded, and on how many levels these stand.
#[derive(Clone, Copy)]
pub(crate) struct Described {
    pub(crate) start: usize,
    pub(crate) size: u16,
    pub(crate) levels: u8,
}

// What stands for no description. It is no Option: `count` tells which names have one.
const BLANK: Described = Described {
    start: 0,
    size: 0,
    levels: 0,
};

// Of the descriptions that are read: each stands at its name, the first of which is 1. There is no heap: the tables stand where a caller has room.
#[derive(Drop)]
pub struct Tables {
    pub(crate) of: [Described; 65],
    pub(crate) count: u16,
    ghost few: { count ≤ 64 },
}

impl Tables {
    ghost use Rattle.std.specs.Prelude.{◌≡◌, ◌+◌, ◌<◌, replicate};
    ghost use Rattle.std.proofs.Common.{set};
    ghost use Rattle.unfolding.specs.code.Known.{blank, levels_in, size_in, start_in};

    // Tables of no description.
    pub fn new() -> Self
        ensures { (result.of ≡ replicate 65 blank) × (result.count ≡ 0) }
    {
        Tables {
            of: [BLANK; 65],
            count: 0,
        }
    }

    // Where description n begins.
    pub(crate) fn start(&self, n: u16) -> usize
        requires { n ≤ 64 }
        ensures { result ≡ start_in self.now.of n }
    {
        self.of[usize::from(n)].start
    }

    // How many entries name n stands for.
    pub(crate) fn size(&self, n: u16) -> u16
        requires { n ≤ 64 }
        ensures { result ≡ size_in self.now.of n }
    {
        self.of[usize::from(n)].size
    }

    // On how many levels they stand.
    pub(crate) fn levels(&self, n: u16) -> u8
        requires { n ≤ 64 }
        ensures { result ≡ levels_in self.now.of n }
    {
        self.of[usize::from(n)].levels
    }

    // One description more.
    pub(crate) fn add(&mut self, one: Described)
        requires { self.old.count < 64 }
        ensures { (self.new.count ≡ self.old.count + 1) × (self.new.of ≡ set self.old.of (self.old.count + 1) one) }
    {
        self.count += 1;
        self.of[usize::from(self.count)] = one;
    }
}
