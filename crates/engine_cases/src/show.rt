// How answers are shown.
use cases::Refused;
use engine::Answer;
use program::Edition;
use std::fmt;
use walks::{Ending, LastStep, RunAnswer};

#[derive(Clone, Copy)]
pub(crate) struct Which(pub Edition);

impl fmt::Display for Which {
    fn fmt<W: fmt::Write>(&self, f: &mut fmt::Formatter<W>) -> fmt::Result {
        match self.0 {
            Edition::First => write!(f, "edition 1"),
            Edition::Second => write!(f, "edition 2"),
        }
    }
}

// What a step answered.
#[derive(Clone, Copy)]
pub(crate) struct Said(pub Answer);

impl fmt::Display for Said {
    fn fmt<W: fmt::Write>(&self, f: &mut fmt::Formatter<W>) -> fmt::Result {
        match self.0 {
            Answer::Start => write!(f, "start"),
            Answer::New(v) => write!(f, "new {v}"),
            Answer::Edge(a, b) => write!(f, "edge {a} {b}"),
            Answer::Release(v) => write!(f, "release {v}"),
            Answer::Transfer(v) => write!(f, "transfer {v}"),
            Answer::Job { number, offset } => write!(f, "job {number} {offset}"),
            Answer::Stop => write!(f, "stop"),
            Answer::Yield => write!(f, "yield"),
            Answer::Refused(refusal) => write!(f, "{}", Refused(refusal)),
        }
    }
}

// What a run answered.
#[derive(Clone, Copy)]
pub(crate) struct Ran(pub RunAnswer);

impl fmt::Display for Ran {
    fn fmt<W: fmt::Write>(&self, f: &mut fmt::Formatter<W>) -> fmt::Result {
        let RunAnswer {
            ending,
            last,
            taken,
        } = self.0;
        match ending {
            Ending::Done => write!(f, "done")?,
            Ending::Stuck => write!(f, "stuck")?,
            Ending::Spent => write!(f, "spent")?,
            Ending::Refused(refusal) => write!(f, "{}", Refused(refusal))?,
        }
        match last {
            LastStep::NoStep => write!(f, ", last none")?,
            LastStep::Step(answer) => write!(f, ", last {}", Said(answer))?,
        }
        write!(f, ", taken {taken}")
    }
}
