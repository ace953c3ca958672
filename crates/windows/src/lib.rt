// The codes of the windows of a list of ranks: definitions and laws, no function. The kernels and their callers stand on it.

#![tactic(auto)]
