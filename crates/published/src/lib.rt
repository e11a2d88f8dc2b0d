// Definitions of the published model, and theorems that the engine is that model; no code.
#![tactic(auto)]
