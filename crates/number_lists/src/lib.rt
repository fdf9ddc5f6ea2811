//! Members of lists and runs of numbers, as the definitions of plans and of descriptions speak of them. The definitions
//! stand in `specs/`; there is no code.
#![tactic(auto)]
