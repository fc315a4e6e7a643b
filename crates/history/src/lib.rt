// The demands about the calls of `steps`, for every history: definitions and theorems, no code.
#![tactic(auto)]
