// Theorems only: demands 2 and 3 of the specification and its proved pieces, over the definitions of crate mesh.
#![tactic(auto)]
