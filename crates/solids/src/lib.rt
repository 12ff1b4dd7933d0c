// Solids and their tables: definitions and laws, no code.
#![tactic(auto)]
