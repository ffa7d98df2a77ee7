// What a value's own bytes decide, in any text: laws, and no code. The proofs of crate `writing` cite them.
// Proved: where a copied value ends, what a compact object's members are, what an array's edit leaves.
// specs/Edit.antt has the edits, and each file of proofs/ says in its first lines what its laws say.
#![tactic(auto)]
