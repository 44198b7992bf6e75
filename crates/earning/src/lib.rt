// The entries of a supplier's description that earn it a yes: each is left out in turn, from the last to the first, and stays out where what is left
// is still contained in the service. Whether it is, is asked of `slots`, for a run of entries at once.
//
// The contracts cite specs/Answer, and the set that is left is Earned of `narrow`, where it is proved what the set means.
#![tactic(auto)]

mod answer;
mod attempt;
mod fold;
mod marks;
mod tried;
mod trying;

pub use answer::earning;
pub use attempt::{Attempt, Part, mark_left, together};
pub use trying::Service;
