// What the passes over a description are lent beside the table of its slots.

use pairs::Sides;

// The cells in which the slots are found, the slot of each entry, and what is marked of each place: the pairs of which it has a property,
// whether it is impossible, and whether it is not empty. Whoever lends it makes the tables
// in its own frame, there being no heap, and each size of them is another. Who reads a table afterwards makes a reference
// to it first, and lends that here once more: then what stands in it is known.
#[derive(Drop)]
pub(crate) struct Workspace<'a, const CELLS: usize> {
    pub cells: &'a mut [u16; CELLS],
    pub node: &'a mut [u16],
    pub marks: &'a mut [Sides],
    pub bad: &'a mut [u8],
    pub full: &'a mut [u8],
}
