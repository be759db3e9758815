// Sheets with hidden choices: definitions and theory, no code. docs/ARCHITECTURE.md says what is here.

#![tactic(auto)]
