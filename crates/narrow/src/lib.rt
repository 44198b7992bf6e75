// The narrowest description that contains two; the entries that earn a yes; what is missing for one: what they are, and
// what they mean. There is no code here: see specs/ and proofs/.
#![tactic(auto)]
