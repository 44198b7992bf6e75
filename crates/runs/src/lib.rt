// Runs: a run is the slots of one place and class, among those that crate `slots` makes of a description. One pass over the slots puts
// each on the chain of its run, from the last to the first; a walk along a chain gathers a run's slots as tags, which a sort brings into
// the order of their names, or looks for the slot of a name.
//
// Every function is total: what a table holds past its end counts as 0, and a store there is not made. The contracts cite specs/, which
// mirrors the code. That a walk along the chains finds exactly the slots of a run is proved in proofs/.
#![tactic(auto)]

mod chains;
mod tags;
mod walks;

pub use chains::chain_slots;
pub use tags::{tag_name, tag_slot};
pub use walks::{gather_links, gather_properties, link_slot, property_slot};
