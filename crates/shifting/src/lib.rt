// The indices of variables where templates open brackets among those of a string: definitions and laws.
#![tactic(auto)]
