// What is asked of the two descriptions: whether the first is contained in the second, and whether nothing fits both.
ghost use Rattle.std.specs.Prelude.{◌≡◌, ◌≤◌, ◌+◌, is_ok, true};
ghost use Rattle.blocks.specs.Reading.{reading_of};
ghost use Rattle.blocks.specs.declared.Schema.{Schema};
ghost use Rattle.earning.specs.Answer.{contained};
ghost use Rattle.missing.specs.Answer.{against};
ghost use Rattle.pairs.specs.Pairs.{pairs_reading};

use blocks::kinds;
use blocks::sizes::BLOCK;
use earning::{Attempt, Part, Service, together};
use writing::write_entries;

// Whether an accepted description is contained in the service.
pub(crate) fn is_contained(service: Service<'_>, c: &[u8]) -> bool
    requires { is_ok (reading_of Schema.Description 1 c.now) ≡ true }
    ensures { result ≡ contained service.entry.pairs.now c.now service.entry.d.now }
{
    let mut table = [0u64; 1009];
    match slots::first_failing(service.pairs, c, service.d, &mut table) {
        Ok(unheld) => unheld.is_none(),
        Err(_) => false,
    }
}

// Whether no item fits both: together they are contained in a description that no item fits.
pub(crate) fn is_against<'a>(pairs: &'a [u8], c: Part<'a>, d: Part<'a>) -> bool
    requires { (is_ok (pairs_reading pairs.now) ≡ true) × (c.total + d.total ≤ 1008) }
    ensures { result ≡ against pairs.now c.entry.bytes.now d.entry.bytes.now }
{
    let mut nothing = [0u8; BLOCK];
    write_entries(&mut nothing, &[u64::from(kinds::NOTHING)], 1);
    let service = Service {
        pairs,
        d: &nothing,
        total: 1,
    };
    together(Attempt {
        stays: c,
        tried: d,
        service,
    })
}
