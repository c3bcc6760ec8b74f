// Walks: many steps in one call, each of the lowest vertex that can step and is not busy. A run is a walk in which nobody is busy; a dispatch hands
// jobs out to a host's threads. Each call is proved equal to the plain machine's definition of it (crate `machine`).
#![tactic(auto)]

mod desk;
pub mod dispatches;
pub mod entry;
pub mod onindex;
pub mod runs;
pub mod walk;

use engine::Answer;
use graph::Tally;
use index::Course;
use refusal::Refusal;

// The result of a step on an index: its answer, the course afterwards, and between which numbers the vertices lie that may step now and could not
// before. Two numbers, and no range in an Option: each is found by a minimum or a maximum, without a test whether it is the first.
#[derive(Clone, Copy)]
pub struct Moved {
    pub answer: Answer,
    pub course: Course,
    pub lowest: u32,
    pub highest: u32,
}

// Where the vertices are that may step, are not busy and are not shut: each is `low`, or `skip` or above. And whether some are shut, because their
// step was refused.
#[derive(Clone, Copy)]
pub struct Candidates {
    pub low: u32,
    pub skip: u32,
    pub shut: bool,
}

// A step of the lowest vertex that can step and is not busy.
#[derive(Clone, Copy)]
pub struct Taken {
    pub vertex: u32,
    pub answer: Answer,
    pub course: Course,
    pub candidates: Candidates,
}

// How far a walk went: its course afterwards, its last step, how many it took, how many jobs it handed out, and whether it ended where no vertex that is
// not busy can step.
#[derive(Clone, Copy)]
pub struct Walked {
    pub course: Course,
    pub last: LastStep,
    pub taken: u32,
    pub handed: u32,
    pub over: bool,
}

// Where a walk rests: how far it went, whether some vertex that is not busy can step there, and whether some vertex can, where jobs are handed out.
#[derive(Clone, Copy)]
pub struct Rested {
    pub walked: Walked,
    pub free: bool,
    pub any: bool,
}

// How a run ends. That, the last step and a dispatch's ending are enums with a case for each answer, as the customer's paper names them (docs/DECISIONS.md, "Form").
#[derive(Clone, Copy)]
pub enum Ending {
    Done,
    Stuck,
    Spent,
    Refused(Refusal),
}

// The last accepted step of a run, if it took one.
#[derive(Clone, Copy)]
pub enum LastStep {
    NoStep,
    Step(Answer),
}

// What a run answers: how it ended, its last step, and how many it took.
#[derive(Clone, Copy)]
pub struct RunAnswer {
    pub ending: Ending,
    pub last: LastStep,
    pub taken: u32,
}

// The result of a run: its answer, and the tally afterwards.
#[derive(Clone, Copy)]
pub struct RunDone {
    pub answer: RunAnswer,
    pub tally: Tally,
}

// How a dispatch ends.
#[derive(Clone, Copy)]
pub enum DispatchEnding {
    Done,
    Stuck,
    Waiting,
    Full,
    Spent,
    Refused(Refusal),
}

// What a dispatch answers: how it ended, how many steps it took, and how many jobs it handed out.
#[derive(Clone, Copy)]
pub struct DispatchAnswer {
    pub ending: DispatchEnding,
    pub taken: u32,
    pub handed: u32,
}

// The result of a dispatch: its answer, and the tally afterwards.
#[derive(Clone, Copy)]
pub struct DispatchDone {
    pub answer: DispatchAnswer,
    pub tally: Tally,
}
