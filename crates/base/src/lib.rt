// What every layer cites: general definitions and lemmas (tests on numbers, ranges, lists, searches, chains, stores). Of the product they know
// which links lead to one item only, and no more. There is no code here: see specs/ and proofs/.
#![tactic(auto)]
