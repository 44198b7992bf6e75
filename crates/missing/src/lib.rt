// What a supplier's description lacks for a service: beside its entries, which all stay, those of the service are left out in turn, from the last
// to the first, where what is left is still enough. `earning` does it; here are the answers, and what is refused.
//
// The contracts cite specs/Answer, and the set that is left is Missing of `narrow`, where it is proved what the set means.
#![tactic(auto)]

mod answer;
mod asking;

pub use answer::missing;

/// What a description lacks to be contained in a service.
#[derive(Clone, Copy)]
pub enum Lack {
    /// Nothing: it is contained.
    Nothing,
    /// The marked entries, and some item fits both.
    Addable,
    /// The marked entries, but no item fits both.
    Against,
}
