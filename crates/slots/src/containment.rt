// Which services of a list are contained in which. Each is read once and slotted once, and all are judged by its slots.
ghost use Rattle.std.specs.Prelude.{◌≡◌, ◌≢◌, List, [], ◌<◌, ◌≤◌, ◌+◌, ◌*◌, ℕ, get_or, length, Err, IfErr, IfOk, Ok};
ghost use Rattle.std.proofs.Props.{props};
ghost use Rattle.blocks.specs.Reading.{reading_of};
ghost use Rattle.blocks.specs.declared.Schema.{Schema};
ghost use Rattle.base.specs.Stores.{rows_at, stored};
ghost use Rattle.lists.specs.Parts.{parts_of};
ghost use Rattle.logic.specs.Background.{Ruled};
ghost use Rattle.pairs.specs.Pairs.{pair_count, under};
ghost use Rattle.slots.specs.Containment.{contained_row, contained_rows, plain_listed_reading, plain_services_reading, table_after, table_listed, table_reading};
ghost use Rattle.slots.specs.code.Lent.{HeldIn};
ghost use Rattle.slots.specs.code.Services.{ServicesRead, no_service};

use crate::accepted::Accepted;
use crate::catalogue::count_services;
use crate::excluding::Marked;
use crate::failing::Supplier;
use crate::filling::chained_slots;
use crate::slots::Slots;
use crate::workspace::Workspace;
use blocks::{Refusal, Schema};
use lists::{Parts, part_length};
use pairs::{Exclusions, INDEX_BYTES, Sides};

// Where a service begins in its list, and how many entries it has.
#[derive(Clone, Copy)]
pub(crate) struct Service {
    pub(crate) start: usize,
    pub(crate) total: u16,
}

const BLANK: Service = Service { start: 0, total: 0 };

// The services of a list, each accepted.
#[derive(Clone, Copy)]
pub(crate) struct Services<'a> {
    pub(crate) list: &'a [u8],
    pub(crate) of: &'a [Service; 64],
    pub(crate) count: usize,
    ghost read: { ServicesRead list.now of.now count } by { Prim.hlevel props },
}

impl<'a> Services<'a> {
    // The bytes of service i, counted from 0.
    fn part(self, i: usize) -> &'a [u8]
        requires { i < self.count }
        ensures { result.now ≡ get_or (parts_of self.entry.list.now) i [] }
    {
        let rest = &self.list[self.of[i].start..];
        &rest[..part_length(rest)]
    }

    // How many entries it has.
    fn total(self, i: usize) -> usize
        requires { i < self.count }
        ensures { (result ≡ (get_or self.entry.of.now i no_service).total) × (reading_of Schema.Description 2 (get_or (parts_of self.entry.list.now) i []) ≡ Ok result) }
    {
        usize::from(self.of[i].total)
    }

    // The service as one that is accepted.
    fn get(self, i: usize) -> Accepted<'a>
        requires { i < self.count }
        ensures { (result.bytes.now ≡ get_or (parts_of self.entry.list.now) i [])
            × (result.total ≡ (get_or self.entry.of.now i no_service).total) }
    {
        let bytes = self.part(i);
        let total = self.total(i);
        Accepted { bytes, total }
    }
}

// Reads the services of a list in turn, as inputs 2, 3 and so on: how many there are, or the first refusal.
fn read_services(list: &[u8], of: &mut [Service; 64]) -> Result<u16, Refusal>
    requires { length (parts_of list.now) ≤ 64 }
    ensures refused { IfErr result (λ x. plain_services_reading 2 (parts_of list.now) ≡ Err x) }
    ensures read { IfOk result (λ n. (plain_services_reading 2 (parts_of list.now) ≡ Ok 0) × ServicesRead list.now of.new n) }
{
    let mut n: usize = 0;
    let mut at: usize = 0;
    for part in Parts::of(list) {
        let total = reading::read(part, Schema::Description, 2 + n as u16)?;
        of[n] = Service { start: at, total };
        at += part.len();
        n += 1;
    }
    Ok(n as u16)
}

// Judges all services by the slots of one, and stores a byte for each from a place of a table on: 1 where the one is contained in it, else 0.
fn judge_row<const BUCKETS: usize, const CELLS: usize>(
    supplier: Supplier<'_, BUCKETS, CELLS>,
    services: Services<'_>,
    states: &mut [u16; 1009],
    table: &mut [u8; 4096],
    at: usize,
)
    requires { at + 64 ≤ 4096 }
    ensures { (c : List ℕ) → HeldIn (under supplier.entry.marked.exclusions.pairs.now) c supplier.entry
        → table.new ≡ stored table.old at (contained_row (under supplier.entry.marked.exclusions.pairs.now) (parts_of services.entry.list.now) c) }
{
    for j in 0..services.count {
        let failing = supplier.judge(services.get(j), states);
        table[at + j] = u8::from(failing.is_none());
    }
}

// Slots and settles service i, of fewer than N entries, and judges all by it. MARKS places are marked.
fn slot_row_within<const N: usize, const MARKS: usize, const BUCKETS: usize, const CELLS: usize>(
    exclusions: Exclusions<'_>,
    services: Services<'_>,
    i: usize,
    states: &mut [u16; 1009],
    table: &mut [u8; 4096],
)
    requires { Ruled (under exclusions.pairs.now) × (i < services.count) × ((get_or services.of.now i no_service).total < N) × (N ≤ 1009) × (251 ≤ BUCKETS) × (BUCKETS ≤ 4093) × (BUCKETS + 2 * N ≤ CELLS) × (CELLS ≤ 8192)
        × (MARKS ≤ 1009) × (pair_count exclusions.pairs.now ≢ 0 → (get_or services.of.now i no_service).total < MARKS) }
    ensures { table.new ≡ stored table.old (64 * i) (contained_row (under exclusions.entry.pairs.now) (parts_of services.entry.list.now)
        (get_or (parts_of services.entry.list.now) i [])) }
{
    let mut slotted = [0u64; N];
    let mut cells = [0u16; CELLS];
    let mut node = [0u16; N];
    let mut bad = [0u8; N];
    let mut full = [0u8; N];
    let mut marks = [Sides::none(); MARKS];
    let cells = &mut cells;
    let marks: &mut [Sides] = &mut marks;
    let mut work = Workspace {
        cells: &mut *cells,
        node: &mut node,
        marks: &mut *marks,
        bad: &mut bad,
        full: &mut full,
    };
    let used = chained_slots::<BUCKETS, CELLS>(
        exclusions,
        services.get(i),
        &mut slotted,
        &mut work,
    );
    let top = work.bad[0];
    let slots = Slots::<BUCKETS, CELLS>::of(&slotted, cells, used);
    let supplier = Supplier::new(Marked { exclusions, marks }, slots, top);
    judge_row(supplier, services, states, table, 64 * i)
}

// The same, where nothing is marked if the list has no pair.
fn slot_row_under<const N: usize, const BUCKETS: usize, const CELLS: usize>(
    exclusions: Exclusions<'_>,
    services: Services<'_>,
    i: usize,
    states: &mut [u16; 1009],
    table: &mut [u8; 4096],
)
    requires { Ruled (under exclusions.pairs.now) × (i < services.count) × ((get_or services.of.now i no_service).total < N) × (N ≤ 1009) × (251 ≤ BUCKETS) × (BUCKETS ≤ 4093) × (BUCKETS + 2 * N ≤ CELLS) × (CELLS ≤ 8192) }
    ensures { table.new ≡ stored table.old (64 * i) (contained_row (under exclusions.entry.pairs.now) (parts_of services.entry.list.now)
        (get_or (parts_of services.entry.list.now) i [])) }
{
    if exclusions.is_empty() {
        return slot_row_within::<N, 0, BUCKETS, CELLS>(exclusions, services, i, states, table);
    }
    slot_row_within::<N, N, BUCKETS, CELLS>(exclusions, services, i, states, table)
}

// The same of any number of entries. Those of one block, and of four, take smaller tables, which are sooner cleared.
fn slot_row(
    exclusions: Exclusions<'_>,
    services: Services<'_>,
    i: usize,
    states: &mut [u16; 1009],
    table: &mut [u8; 4096],
)
    requires { Ruled (under exclusions.pairs.now) × (i < services.count) }
    ensures { table.new ≡ stored table.old (64 * i) (contained_row (under exclusions.entry.pairs.now) (parts_of services.entry.list.now)
        (get_or (parts_of services.entry.list.now) i [])) }
{
    let n = services.total(i);
    if n < 64 {
        return slot_row_under::<64, 251, 379>(exclusions, services, i, states, table);
    }
    if n < 253 {
        return slot_row_under::<253, 4093, 4599>(exclusions, services, i, states, table);
    }
    slot_row_under::<1009, 4093, 6111>(exclusions, services, i, states, table)
}

// The rows of all services.
fn judge_rows(exclusions: Exclusions<'_>, services: Services<'_>, table: &mut [u8; 4096])
    requires { Ruled (under exclusions.pairs.now) }
    ensures { table.new ≡ rows_at table.old 0 (contained_rows (under exclusions.entry.pairs.now) (parts_of services.entry.list.now)) }
{
    let mut states = [0u16; 1009];
    for i in 0..services.count {
        slot_row(exclusions, services, i, &mut states, table);
    }
}

// Judges each service of a list by each, under a list of pairs that is accepted and indexed.
fn judge_services(
    exclusions: Exclusions<'_>,
    list: &[u8],
    table: &mut [u8; 4096],
) -> Result<u16, Refusal>
    requires { Ruled (under exclusions.pairs.now) }
    ensures { (result ≡ plain_listed_reading list.now) × (table.new ≡ table_listed (under exclusions.entry.pairs.now) list.now table.old) }
{
    count_services(list)?;
    let mut of = [BLANK; 64];
    let count = read_services(list, &mut of)?;
    let services = Services {
        list,
        of: &of,
        count: usize::from(count),
    };
    judge_rows(exclusions, services, table);
    Ok(count)
}

/// Reads a list of pairs and a list of 1 to 64 services, laid end to end, and stores in a table, 64 bytes a row, which is contained in which:
/// byte j of row i, both counted from 0, is 1 where service i is contained in service j, else 0. Returns how many services there are; or the
/// refusal: of the pairs, of the list as input 2, of service i as input 2 + i. Then the table stays, as do the bytes of no two services.
pub fn contained_table(pairs: &[u8], list: &[u8], table: &mut [u8; 4096]) -> Result<u16, Refusal>
    ensures { (result ≡ table_reading pairs.now list.now) × (table.new ≡ table_after pairs.now list.now table.old) }
{
    pairs::read_pairs(pairs)?;
    let mut index = [0u8; INDEX_BYTES];
    judge_services(Exclusions::new(pairs, &mut index), list, table)
}
