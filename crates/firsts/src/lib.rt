// A table of keys, each entered once and numbered, in which no choice of keys makes a search long.
#![tactic(auto)]

mod firsts;

pub use firsts::Firsts;
