// Theorems only: what document 01 promises of every result. The statement is in specs/Results.antt.
#![tactic(auto)]
