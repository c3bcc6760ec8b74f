// Loading, stepping and running (docs/ENGINE.md) as definitions, and demand 3 of them. There is no code here, but for `laws`, whose functions do nothing:
// what they promise is the theorems.

#![tactic(auto)]

pub mod laws;
