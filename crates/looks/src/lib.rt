// How many cells the searches of a comparison look at, and how many numbers its walks along the list of pairs come to.
// There is no code here: see specs/ and proofs/.
#![tactic(auto)]
