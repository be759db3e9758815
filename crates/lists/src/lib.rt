// The search, the rounds and the numbering over lists of numbers, which are what the fields of the records make. No code.

#![tactic(auto)]
