// What the kinds of entries are called, by their numbers in the format.

// The item has the property of this name.
pub const HAS: u8 = 1;

// The item lacks the property.
pub const LACKS: u8 = 2;

// At least so many different items by the link of this name.
pub const AT_LEAST: u8 = 3;

// At most so many.
pub const AT_MOST: u8 = 4;

// 'Every': each item by the link fits what the entry owns.
pub const EVERY: u8 = 5;

// Nothing fits.
pub const NOTHING: u8 = 6;

// In a specimen: a group of items by the link.
pub const GROUP: u8 = 7;

// A name: it stands for a description of the dictionary.
pub const NAME: u8 = 9;
