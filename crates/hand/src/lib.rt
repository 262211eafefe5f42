// Theorems only: document 01's hand calculations, as the rows of specs/Hand.antt.
#![tactic(auto)]
