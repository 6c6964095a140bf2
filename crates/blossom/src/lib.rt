// The theory of the maximum matching: a search by rows, step by step, and why what it ends with is a maximum. No code.
#![tactic(auto)]
