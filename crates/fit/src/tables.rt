// The tables that judging needs, in four sizes: what is short is judged with short tables, which are sooner cleared.
ghost use Rattle.std.specs.Prelude.{◌≡◌, ◌+◌, ◌%◌, ◌-◌, ◌≤◌, ◌<◌, length, replicate};
ghost use Rattle.blocks.specs.Reading.{reading_of};
ghost use Rattle.blocks.specs.declared.Schema.{Schema};
ghost use Rattle.fit.specs.Answer.{top_fits};
ghost use Rattle.fit.specs.Counted.{groups_in};

use crate::groups::{Items, Known};
use crate::index::{index_description, index_specimen};
use crate::judge::fits_place;
use crate::places::Places;
use crate::totals::Filling;

// Whether the top item fits, and how many additions the table of totals and the walk over entries took. No `Counted`, whose answer may be a
// refusal: both inputs are accepted.
#[derive(Clone, Copy)]
pub(crate) struct Judged {
    pub fits: bool,
    pub table: u16,
    pub walk: u16,
}

// Judges the top item of a specimen with n entries by a description with m entries, both accepted, with tables of its own for fewer than MOST
// entries in each input; LINKS is twice that. One counter goes through the making of the table of totals and then through the walk.
fn judge_sized<const MOST: usize, const LINKS: usize>(
    s: &[u8],
    n: usize,
    d: &[u8],
    m: usize,
) -> Judged
    requires { (reading_of Schema.Specimen 1 s.now ≡ Ok n) × (reading_of Schema.Description 2 d.now ≡ Ok m) × (n < MOST) × (m < MOST)
        × (MOST ≤ 2048) × ((MOST - 1) % 2 ≡ 1) × (LINKS ≡ MOST + MOST) }
    ensures { (result.fits ≡ top_fits s.now d.now) × (result.table ≡ groups_in s.now) × (result.walk ≡ 0) }
{
    let mut filling = Filling::<MOST, LINKS>::new();
    let mut owning = [false; MOST];
    let mut adds: u16 = 0;
    filling.fill(s, n, &mut owning, &mut adds);
    let table = adds;
    let mut si = [0u16; LINKS];
    index_specimen(s, n, MOST, &owning, &mut si);
    let mut di = [0u16; LINKS];
    let mut demanding = [false; MOST];
    index_description(d, m, MOST, &mut di, &mut demanding);
    let items = Items {
        bytes: s,
        index: &si,
        most: MOST,
    };
    let places = Places {
        bytes: d,
        index: &di,
        marks: &demanding,
        most: MOST,
    };
    let known = Known::new(items, filling.totals(), places);
    let fits = fits_place(&known, 0, 0, 33, &mut adds);
    Judged {
        fits,
        table,
        walk: adds - table,
    }
}

// Judges the top item, with tables of a size that is enough for the longer input. Its numbers are powers of two and
// twice these, as `judge_sized` has them: 512 is twice 256 here, and has nothing to do with a block.
pub(crate) fn judge_top(s: &[u8], n: usize, d: &[u8], m: usize) -> Judged
    requires { (reading_of Schema.Specimen 1 s.now ≡ Ok n) × (reading_of Schema.Description 2 d.now ≡ Ok m) }
    ensures { (result.fits ≡ top_fits s.now d.now) × (result.table ≡ groups_in s.now) × (result.walk ≡ 0) }
{
    let longer = n.max(m);
    if longer < 64 {
        judge_sized::<64, 128>(s, n, d, m)
    } else if longer < 256 {
        judge_sized::<256, 512>(s, n, d, m)
    } else if longer < 1024 {
        judge_sized::<1024, 2048>(s, n, d, m)
    } else {
        judge_sized::<2048, 4096>(s, n, d, m)
    }
}
