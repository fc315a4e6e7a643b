// The page that a reviewer opens first: every demand and the proved cases P1 to P10, by citation; no code.
#![tactic(auto)]
