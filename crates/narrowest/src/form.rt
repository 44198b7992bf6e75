// A normal form by its packed entries, which ascend by owner, kind and name. An entry is looked for from a guess on, where the last look ended or
// where its place begins, and by halving where the guess is no help: what is found does not depend on it.
ghost use Rattle.std.specs.Prelude.{◌≡◌, ◌<◌, get_or, length, true};
ghost use Rattle.logic.specs.Normal.{rank};
ghost use Rattle.meaning.specs.Lookup.{entry_for};
ghost use Rattle.narrowest.specs.code.Forms.{Halving, Held, Seeks, Spans, entries_in, key_for, key_in, kind_in};
ghost use Rattle.unfolding.specs.code.Rows.{entry_of_row};

use blocks::Entry;

// A kind of entry that lists a number for a name, beside 'every'.
#[derive(Clone, Copy)]
pub(crate) enum AtomKind {
    Has = 1,
    Lacks = 2,
    AtLeast = 3,
    AtMost = 4,
}

impl AtomKind {
    // Its number in an entry.
    pub(crate) fn number(self) -> u8
        ensures { result ≡ rank (kind_in self) }
    {
        self as u8
    }
}

// The entry of a number.
#[tactic(auto, unfolding(unfolding::specs::code::Rows::entry_of_row))]
pub(crate) fn entry_of_row(x: u64) -> Entry
    ensures { result ≡ entry_of_row x }
{
    Entry {
        kind: (x % 256) as u8,
        reserved: (x % 65536 / 256) as u8,
        owner: (x / 65536 % 65536) as u16,
        name: (x / 4294967296 % 65536) as u16,
        number: (x / 281474976710656) as u16,
    }
}

// Where entries of an owner, a kind and a name stand in the order.
fn order_key(owner: u16, kind: u8, name: u16) -> u64
    ensures { result ≡ key_for owner kind name }
{
    (u64::from(owner) * 256 + u64::from(kind)) * 65536 + u64::from(name)
}

// Where a packed entry stands.
#[tactic(auto, unfolding(crate::specs::code::Forms::key_in))]
fn row_key(x: u64) -> u64
    ensures { result ≡ key_in x }
{
    let e = entry_of_row(x);
    order_key(e.owner, e.kind, e.name)
}

// The packed entries of a normal form, entry n as the number n - 1.
#[derive(Clone, Copy)]
pub(crate) struct Form<'a> {
    pub(crate) rows: &'a [u64],
    // By owner, how many entries stand before its first; 0 where it has none. These are guesses: no promise rests on them.
    pub(crate) starts: &'a [u16],
    ghost held: { Held rows.now },
}

// The packed entries of a place, and how many stand before them.
#[derive(Clone, Copy)]
pub(crate) struct Span<'a> {
    pub(crate) from: usize,
    pub(crate) rows: &'a [u64],
}

impl<'a> Form<'a> {
    // A guess at how many entries stand before a key, if all of these do; else none.
    fn begin(self, guess: usize, key: u64) -> usize
        ensures { Halving self.entry.rows.now key result (length self.entry.rows.now) }
    {
        if guess == 0 || self.rows.len() < guess {
            return 0;
        }
        if key <= row_key(self.rows[guess - 1]) {
            return 0;
        }
        guess
    }

    // How many entries stand before a key: from a guess on in steps that grow, and by halving once they have gone too far.
    fn seek(self, guess: usize, key: u64) -> usize
        ensures { Seeks self.entry.rows.now key result }
    {
        let mut from = self.begin(guess, key);
        let mut to = self.rows.len();
        let mut step: usize = 0;
        while from < to {
            let middle = (from + step).min((from + to) / 2);
            if row_key(self.rows[middle]) < key {
                from = middle + 1;
                step = (2 * step + 1) % 1024;
            } else {
                to = middle;
                step = 1023;
            }
        }
        from
    }

    // How many entries may stand before those of a place.
    pub(crate) fn start(self, owner: u16) -> usize {
        let o = usize::from(owner);
        if self.starts.len() <= o {
            return 0;
        }
        usize::from(self.starts[o])
    }

    // The entries of a place, and how many stand before them.
    pub(crate) fn span(self, owner: u16) -> Span<'a>
        ensures { Spans self.entry.rows.now owner result.from result.rows.now }
    {
        let key = order_key(owner, 0, 0);
        let from = self.seek(self.start(owner), key);
        let to = self.seek(from, key + 16777216);
        Span {
            from,
            rows: &self.rows[from..to],
        }
    }

    // The number of the entry of an owner, a kind and a name; 0 where there is none. It is looked for near a place, which becomes the one after it.
    pub(crate) fn find(self, owner: u16, kind: u8, name: u16, near: &mut usize) -> usize
        ensures { result ≡ entry_for (entries_in self.entry.rows.now) owner kind name }
    {
        let key = order_key(owner, kind, name);
        let i = self.place(*near, key);
        *near = i;
        if self.rows.len() <= i {
            return 0;
        }
        if row_key(self.rows[i]) != key {
            return 0;
        }
        *near = i + 1;
        i + 1
    }

    // The same, where a guess is mostly right.
    fn place(self, guess: usize, key: u64) -> usize
        ensures { Seeks self.entry.rows.now key result }
    {
        if self.stands(guess, key) {
            return guess;
        }
        self.seek(guess, key)
    }

    // Whether an entry stands at a key.
    fn stands(self, i: usize, key: u64) -> bool
        ensures { result ≡ true → (i < length self.entry.rows.now) × (key_in (get_or self.entry.rows.now i 0) ≡ key) }
    {
        if self.rows.len() <= i {
            return false;
        }
        row_key(self.rows[i]) == key
    }
}

// Notes in a table where the entries of each owner start: from the last to the first, so that its first is noted last.
pub(crate) fn note_starts(rows: &[u64], starts: &mut [u16])
    ensures { length starts.new ≡ length starts.old }
{
    let count = rows.len();
    for i in 0..count {
        let n = count - 1 - i;
        let owner = usize::from(entry_of_row(rows[n]).owner);
        if owner < starts.len() {
            starts[owner] = (n % 65536) as u16;
        }
    }
}
