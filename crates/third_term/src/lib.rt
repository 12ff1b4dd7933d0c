// The third term: what the boundary of a swept solid says of the solid. No code: see specs/ and proofs/.
#![tactic(auto)]
