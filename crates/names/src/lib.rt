// Descriptions that name others of a dictionary: what they mean, and the plain description that each stands for. There is no code here yet:
// see specs/ and proofs/.
#![tactic(auto)]
