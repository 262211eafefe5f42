// Theorems only: document 01's section 'Load order'. The statement is in specs/LoadOrder.antt.
#![tactic(auto)]
