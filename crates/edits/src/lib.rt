// Definitions and theorems only: specs/ says when a plan from any hand is accepted and what is at fault where it is not, proofs/ what
// acceptance gives.

#![tactic(auto)]
