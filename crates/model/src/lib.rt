// Definitions and theorems only: specs/ says what document 01 asks for, proofs/ what follows from it.

#![tactic(auto)]
