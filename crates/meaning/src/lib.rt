// What lists of entries say: a description as a tree of places, a specimen as a record of items, the entries of a normal form, the rules of
// the normal form, the first entry that fails, and the specimen that shows it. There is no code here: see specs/ and proofs/.
#![tactic(auto)]
