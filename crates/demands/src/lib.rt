// The three demands in the buyer's words are in specs/; the theorems about the operations are in proofs/.
#![tactic(auto)]
