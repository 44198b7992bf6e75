// Which items of a delivered record fit a description: all of them at once, place by place of the description. Nothing goes along the links of the
// record, which may go round.
//
// The contract cites specs/Answer. What a byte says of an item, by name and under which pairs, is proved in `answers`.
#![tactic(auto)]

mod answer;
mod facts;
mod judge;
mod marking;
mod marks;
mod sent;

pub use answer::fit_items;
