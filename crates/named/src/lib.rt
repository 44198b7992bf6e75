// The calls that take a dictionary: descriptions may name those of it. With a dictionary of length 0 the inputs go to the plain calls as they
// are: nothing is copied and nothing read again. Otherwise they are unfolded first, into buffers, and the plain call goes on from there.
//
// `compare`, `fit` and `normalise` begin alike: with no dictionary as it is sent, else the list of pairs is read and the rest goes on. One function
// that is handed what comes after, as closures, would be longer than the lines that they share.
//
// What stands in several contracts, that a list of pairs is accepted (`ListTaken`) and a dictionary is not of length 0, is of two inputs that are
// lent on as the caller handed them over: a struct of the two would say no more than the clauses, which one lemma gives to all three calls.
//
// The contracts cite specs/Answer. That the answers are those for the unfolded descriptions is proved in proofs/.
#![tactic(auto)]

mod comparing;
mod fitting;
mod narrowing;
mod normalising;
mod sent;

pub use comparing::{compare, compare_sent};
pub use fitting::{fit, fit_counted, fit_sent};
pub use narrowing::narrowest;
pub use normalising::{normalise, normalise_sent};
