// The narrowest description that contains two: the normal forms of both, and then place by place what both say, written in its final order.
//
// What it is, that it contains both and is the least that does is proved in `narrow` and `narrow_listed`, over entries; the contracts cite
// specs/Answer, and specs/code/ mirrors the passes.
#![tactic(auto)]

mod answer;
mod form;
mod lacking;
mod lacks;
mod links;
mod mates;
mod paired;
mod place;
mod placed;
mod rows;
mod walk;

pub use answer::narrowest;
