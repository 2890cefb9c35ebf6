// The level of a text by tables is its level by the rules: proofs/.
#![tactic(auto)]
