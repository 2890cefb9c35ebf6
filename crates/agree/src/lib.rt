// No code: what the readers by position find is what the rules of crate `rules` read; definitions are in specs/, theorems in proofs/.
#![tactic(auto)]
