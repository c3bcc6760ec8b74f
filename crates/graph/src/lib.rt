// The task graph of the dag-calculus in lent tables: the opening and the seven commands.
//
// Everything that is kept between calls is lent by the caller: a table of vertex rows, a table of edge rows and the tally. Each call
// ends in an accepted command or in a numbered refusal that changed nothing. What each function does is an equation with a
// definition of specs/.
#![tactic(auto)]

ghost use Rattle.std.specs.Prelude.{◌≡◌, not};
ghost use Rattle.graph.specs.Answers.{said, accepted};

pub mod commands;
mod edges;
pub mod entry;
pub mod laws;
pub mod paths;
pub mod refusals;
pub mod rows;
pub mod sound;

use refusal::Refusal;

// The tally: how much of the tables is in use. Single commands leave `steps` alone.
#[repr(C)]
#[derive(Clone, Copy, Debug, PartialEq, Eq)]
pub struct Tally {
    pub made: u32,
    pub held: u32,
    pub steps: u32,
}

// A single command, with the vertices that it names.
#[derive(Clone, Copy, Debug, PartialEq, Eq)]
pub enum Command {
    NewTd {
        caller: u32,
        place: u32,
        scope: u32,
    },
    NewEdge {
        caller: u32,
        source: u32,
        target: u32,
    },
    Release {
        caller: u32,
        vertex: u32,
    },
    Transfer {
        caller: u32,
        vertex: u32,
    },
    Start {
        vertex: u32,
    },
    Stop {
        caller: u32,
    },
    Yield {
        caller: u32,
    },
}

// The result of the opening: its answer, and the tally afterwards.
#[derive(Clone, Copy, Debug, PartialEq, Eq)]
pub struct OpenDone {
    pub answer: Result<(), Refusal>,
    pub tally: Tally,
}

// What a single command answers. The refusal is one of its cases, as the customer wants a step's answer (docs/DECISIONS.md, "Form"), which says
// whatever a command can.
#[derive(Clone, Copy, Debug, PartialEq, Eq)]
pub enum Answer {
    Start,
    New(u32),
    Edge(u32, u32),
    Release(u32),
    Transfer(u32),
    Stop,
    Yield,
    Refused(Refusal),
}

impl Answer {
    pub fn is_refused(&self) -> bool
        ensures { result ≡ not (accepted (said self.now)) }
    {
        matches!(self, Answer::Refused(_))
    }
}

// The result of a command: its answer, and the tally afterwards.
#[derive(Clone, Copy, Debug, PartialEq, Eq)]
pub struct Done {
    pub answer: Answer,
    pub tally: Tally,
}
