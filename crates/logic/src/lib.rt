// The logic, ALN, on trees: places and their atoms, finite records and what fits in them, backgrounds, the normal
// form and what it is, when it holds an atom, and the specimen that shows that it does not. There is no code here,
// and no entry of an input: see specs/ and proofs/.
#![tactic(auto)]
