// Why refusal 35 was given: the shortest chain of held edges that leads from an edge's target back to its source.
//
// The tables and the tally are only read, and the chain is written into a list that the caller lends. Each call ends in a chain or in a
// numbered refusal that changed nothing. What it writes and answers is an equation with a definition of specs/.
#![tactic(auto)]

pub mod entry;
pub mod laws;
mod nearest;
pub mod showing;
