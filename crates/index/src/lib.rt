// The run's own index of its edges, which is kept while a run lasts: the edge rows with the dropped ones still among them, linked by their
// targets and by their sources. A run takes the held edges in, does its commands on the index, where an edge is found, added, handed on or dropped
// without a look at the others, and hands the edges that are left back at its end.
#![tactic(auto)]

pub mod commands;
pub mod layout;
pub mod looks;
pub mod rows;
pub mod search;

use graph::{Answer, Tally};

// Where a run stands besides its tables: the tally, the rows of its index that are used, dropped ones among them, and the largest number of edges
// that were held at a time.
#[derive(Clone, Copy, Debug, PartialEq, Eq)]
pub struct Course {
    pub tally: Tally,
    pub used: u32,
    pub peak: u32,
}

// The result of a command: its answer, the course afterwards, and between which numbers the vertices lie that may step now and could not before: of nobody,
// `NOWHERE` and 0, which min and max leave alone.
#[derive(Clone, Copy, Debug, PartialEq, Eq)]
pub struct Changed {
    pub answer: Answer,
    pub course: Course,
    pub lowest: u32,
    pub highest: u32,
}

// How many edges a stop drops, and between which numbers their targets lie.
#[derive(Clone, Copy, Debug, PartialEq, Eq)]
pub struct Lowered {
    pub dropped: u32,
    pub lowest: u32,
    pub highest: u32,
}

// What a command hinges on: where no row leads from `goal` to `start`, it is refused if a path leads from `start` to `goal`, or, where it `appends` a
// row, if none is left.
#[derive(Clone, Copy, Debug, PartialEq, Eq)]
pub struct Pair {
    pub start: u32,
    pub goal: u32,
    pub appends: bool,
}
