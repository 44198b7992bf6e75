// A drafting desk (O1): one description and up to four named stands of it, in memory that is lent. Nothing is written where a call is refused.
//
// A desk is its counters, and the memory that they tell of. `act` does what is asked of both: a thin call over a core that takes the counters by
// value and hands out those that are left. `buffer` has the same for a desk in one buffer, as C and Rust keep it. Each call looks first whether
// it is given a desk at all (R20). The contracts cite the definitions of `drafts`; what they mean, for every list of calls, is proved there.
#![tactic(auto)]

pub mod buffer;
mod calls;
mod forms;
mod lent;
mod sound;
mod stores;
mod writing_out;

pub use lent::{act, write_out};
