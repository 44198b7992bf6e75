// The narrowest description that contains two, what fails and what is missing, for accepted bytes under an accepted
// list of pairs. There is no code here: see specs/ and proofs/.
#![tactic(auto)]
