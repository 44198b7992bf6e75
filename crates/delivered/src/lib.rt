// Delivered records: items that are shared and links that go round, read or refused. Number 10 is theirs alone, and neither owners nor depths are
// looked at.
//
// The contract cites specs/Reading. That a record which is not refused keeps the rule on single links and the list of pairs is proved in proofs/.
#![tactic(auto)]

mod entries;
mod reader;
mod single;

pub use entries::LINKED;
pub use reader::Delivered;
