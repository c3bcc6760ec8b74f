// Looks, on an index of the edges: which vertices are open, and which of them can step. Nothing is stored but who is shut, because its step would be
// refused. On what is reached from a loading the first open vertex can step, or hardly any cannot. On altered tables all but one may be refused, each
// for a path of its own; so many paths are looked for at once (`sift`).
#![tactic(auto)]

pub mod able;
pub mod look;
pub mod open;
mod sift;

// What a step hinges on: nothing, it may be accepted at once; a path; a path or a row, where it needs one; nothing, it is refused in any case.
#[derive(Clone, Copy, Debug, PartialEq, Eq)]
pub enum Kind {
    Nothing,
    Path,
    PathOrRow,
    Barred,
}

// What a step hinges on: whether a path leads from `start` to `goal`, or what else its kind says.
#[derive(Clone, Copy)]
pub struct Hinge {
    pub start: u32,
    pub goal: u32,
    pub kind: Kind,
}
