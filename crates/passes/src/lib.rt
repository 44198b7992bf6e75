// The passes that give the normal form, on lists: the slots of a description's rows, built, settled, put in order and written, and why what
// they write is the normal form. There is no code here: see specs/ and proofs/. The crate `slots` keeps the same slots in tables.
#![tactic(auto)]
