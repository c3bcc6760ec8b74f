// The engine: loading and steps of a program on lent tables, each of an edition. Each call is proved equal to the plain machine's definition
// of it (crate `machine`), so demand 3 speaks of the engine. Runs and dispatches stand on it (crate `walks`).
#![tactic(auto)]

pub mod demand;
pub mod entry;
pub mod leaps;
pub mod load;
pub mod look;
pub mod next;
pub mod steps;

ghost use Rattle.std.specs.Prelude.{◌≡◌, not};
ghost use Rattle.graph.specs.Answers as of_graph;
ghost use Rattle.machine.specs.Answers.{accepted, said_as};
ghost use Rattle.engine.specs.Answers.{said};

use graph::{Command, Tally};
use refusal::{Reason, Refusal};

// The result of loading: whether it is refused, and the tally afterwards.
#[derive(Clone, Copy)]
pub struct LoadDone {
    pub answer: Result<(), Refusal>,
    pub tally: Tally,
}

// What a step answers: one of the eight things that an accepted step says, or the refusal, one enum as the customer wants it (docs/DECISIONS.md, "Form").
#[derive(Clone, Copy)]
pub enum Answer {
    Start,
    New(u32),
    Edge(u32, u32),
    Release(u32),
    Transfer(u32),
    Job { number: u32, offset: u32 },
    Stop,
    Yield,
    Refused(Refusal),
}

impl Answer {
    pub fn is_refused(&self) -> bool
        ensures { result ≡ not (accepted (said self.now)) }
    {
        matches!(self, Answer::Refused(_))
    }
}

// What a single command answered, as a step says it.
impl From<graph::Answer> for Answer {
    ghost from_gives = { λ answer step. said step ≡ said_as (of_graph.said answer) };

    fn from(answer: graph::Answer) -> Answer {
        match answer {
            graph::Answer::Start => Answer::Start,
            graph::Answer::New(vertex) => Answer::New(vertex),
            graph::Answer::Edge(source, target) => Answer::Edge(source, target),
            graph::Answer::Release(vertex) => Answer::Release(vertex),
            graph::Answer::Transfer(vertex) => Answer::Transfer(vertex),
            graph::Answer::Stop => Answer::Stop,
            graph::Answer::Yield => Answer::Yield,
            graph::Answer::Refused(refusal) => Answer::Refused(refusal),
        }
    }
}

// The result of a step: its answer, and the tally afterwards.
#[derive(Clone, Copy)]
pub struct Done {
    pub answer: Answer,
    pub tally: Tally,
}

// The words of a vertex's row that only its own steps move: its place, its phase, the three vertices that the item at hand made, and its
// latest open future.
#[derive(Clone, Copy)]
pub struct Own {
    pub place: u32,
    pub phase: u32,
    pub first: u32,
    pub second: u32,
    pub third: u32,
    pub latest: u32,
}

// What is due at a step of a vertex: a refusal, before any command; a job, with its number and offset; or a single command of the
// calculus. With the last two comes what the vertex's own words are afterwards. A `Result` of a job or a command would be no plainer: one `match` does
// what is due, whichever it is.
#[derive(Clone, Copy)]
pub enum Due {
    Refused(Reason),
    Job { number: u32, offset: u32, own: Own },
    Command { command: Command, own: Own },
}

// The result of loading a program and stepping a list of vertices: what loading answered, how many of the steps were accepted, and the
// tally afterwards.
#[derive(Clone, Copy)]
pub struct ListDone {
    pub loading: Result<(), Refusal>,
    pub accepted: u32,
    pub tally: Tally,
}
