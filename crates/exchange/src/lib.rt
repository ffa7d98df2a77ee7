// Demand 3 and its kin, over whole sequences of events and the contracts of the keeper's public entries: definitions and laws only.
// Proved: an event leaves a well-formed table well-formed and every other call's record as it was and where it was; two neighbours that do
// not name the same Call-ID may change places. A caller of `keeper` may count on the theorems of proofs/.
#![tactic(auto)]
