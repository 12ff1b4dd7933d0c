// Prisms over the cells of a solid: definitions and laws, no code.
#![tactic(auto)]
