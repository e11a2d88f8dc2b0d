// Theorems on runs and their verdicts, and the marked examples; no code.
#![tactic(auto)]
