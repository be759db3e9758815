// What proofs about parts of lent slices share. No code.
#![tactic(auto)]
