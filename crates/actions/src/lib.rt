// Theorems on actions: every accepted one keeps the state rules; no code.
#![tactic(auto)]
