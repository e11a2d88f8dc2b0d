// The three demands as three statements, proved by citing the theorems of other crates; no code.
#![tactic(auto)]
