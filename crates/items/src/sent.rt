// The items that fit a description as it is sent, or as a dictionary unfolds it.
ghost use Rattle.std.specs.Prelude.{◌≡◌, ◌≤◌, ◌<◌, [], length, IfOk, IfErr};
ghost use Rattle.blocks.specs.Entries.{entries_of};
ghost use Rattle.blocks.specs.Reading.{reading_of};
ghost use Rattle.blocks.specs.declared.Schema.{Schema};
ghost use Rattle.items.specs.code.Record.{Marked};
ghost use Rattle.names.specs.NamedReading.{unfolding_of};
ghost use Rattle.places.specs.Owned.{with_room};

use crate::marking::mark_fitting;
use blocks::sizes::BLOCK;
use blocks::{Refusal, Schema};
use delivered::Delivered;
use places::{PlaceTables, Places};
use unfolding::Dictionary;
use writing::bytes_for;

// Reads a description, input 2, where no name can be given. One that is refused is read again, since there a name is refused by another number.
fn read_sent<'a, const N: usize>(
    d: &'a [u8],
    tables: &'a mut PlaceTables<N>,
) -> Result<Places<'a>, Refusal>
    requires { with_room N (reading_of Schema.Description 2 d.now) ≡ reading_of Schema.Description 2 d.now }
    ensures refused { IfErr result (λ x. unfolding_of [] 2 d.now ≡ Err x) }
    ensures accepted { IfOk result (λ p. (unfolding_of [] 2 d.now ≡ Ok p.total) × (p.bytes.now ≡ d.now)) }
{
    match Places::read(d, 2, tables) {
        Ok(places) => Ok(places),
        Err(e) => {
            reading::read(d, Schema::Named(0), 2)?;
            Err(e)
        }
    }
}

// Marks the items of a record that fit a description as it is sent, with tables of N cells, which have room for its entries.
fn mark_sent_in<const N: usize>(
    delivered: Delivered,
    description: &[u8],
    marks: &mut [bool; 256],
) -> Result<u16, Refusal>
    requires { (N ≤ 1009) × (with_room N (reading_of Schema.Description 2 description.now) ≡ reading_of Schema.Description 2 description.now) }
    ensures reading { result ≡ unfolding_of [] 2 description.now }
    ensures marked { IfOk result (λ n. Marked [] delivered.entry.items (entries_of delivered.entry.bytes.now) description.now marks.new) }
{
    let mut tables = PlaceTables::<N>::new();
    let places = read_sent(description, &mut tables)?;
    mark_fitting(delivered, places, marks);
    Ok(places.total() as u16)
}

// Marks the items of a record that fit a description as it is sent. Few entries take small tables, which are sooner cleared.
pub(crate) fn mark_sent(
    delivered: Delivered,
    description: &[u8],
    marks: &mut [bool; 256],
) -> Result<u16, Refusal>
    ensures reading { result ≡ unfolding_of [] 2 description.now }
    ensures marked { IfOk result (λ n. Marked [] delivered.entry.items (entries_of delivered.entry.bytes.now) description.now marks.new) }
{
    if description.len() <= BLOCK {
        return mark_sent_in::<64>(delivered, description, marks);
    }
    mark_sent_in::<1009>(delivered, description, marks)
}

// Marks the items of a record that fit what a description stands for under a dictionary, with a buffer that has room for every description.
pub(crate) fn mark_unfolded(
    dictionary: Dictionary,
    delivered: Delivered,
    description: &[u8],
    buffer: &mut [u8],
    marks: &mut [bool; 256],
) -> Result<u16, Refusal>
    requires { (0 < length dictionary.bytes.now) × (8192 ≤ length buffer.old) }
    ensures reading { result ≡ unfolding_of dictionary.entry.bytes.now 2 description.now }
    ensures marked { IfOk result (λ n. Marked dictionary.entry.bytes.now delivered.entry.items (entries_of delivered.entry.bytes.now) description.now marks.new) }
{
    let n = dictionary.unfold_into(description, 2, buffer)?;
    let end = bytes_for(n);
    let mut tables = PlaceTables::<1009>::new();
    let places = Places::read(&buffer[..end], 2, &mut tables)?;
    mark_fitting(delivered, places, marks);
    Ok(n)
}
