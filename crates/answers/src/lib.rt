// What the answers of the calls that take a dictionary mean, and when two normal forms are equal byte for byte. There is no code here: see
// specs/ and proofs/.
#![tactic(auto)]
