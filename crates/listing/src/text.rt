// The lister's lines: a heading, a step, and a refused program. Each is shown as specs/Text.antt has it, without
// the line's end.
ghost use Rattle.std.specs.Prelude.{◌≡◌, ◌≤◌, Some, length};
ghost use Rattle.refusal.specs.Reasons.{number};
ghost use Rattle.program.specs.Encodings.{vertex_formula, step_formula};
ghost use Rattle.program.specs.Answers.{item_counts};
ghost use Rattle.engine.specs.Answers.{said};
ghost use Rattle.listing.specs.Text.{answer_text, heading_text, heading_words, refused_words, step_text, step_words};

use crate::LINE_BYTES;
use engine::Answer;
use program::reading::{steps, vertices};
use program::{Edition, ItemCounts};
use refusal::Refusal;
use std::fmt;

// The vertices, the jobs and the steps of a program.
#[derive(Clone, Copy)]
pub struct Heading {
    pub vertices: u64,
    pub jobs: u16,
    pub steps: u64,
}

impl Heading {
    // Of a program with these items.
    pub(crate) fn of(items: ItemCounts, edition: Edition) -> Self
        ensures vertices { result.vertices ≡ vertex_formula edition (item_counts items) }
        ensures jobs { result.jobs ≡ items.jobs }
        ensures steps { result.steps ≡ step_formula edition (item_counts items) }
        ensures short { length (heading_text result.vertices result.jobs result.steps) ≤ LINE_BYTES }
    {
        Self {
            vertices: vertices(items, edition),
            jobs: items.jobs,
            steps: steps(items, edition),
        }
    }
}

impl fmt::Display for Heading {
    ghost output = { λ h. Some (heading_words h.vertices h.jobs h.steps) };

    #[tactic(auto, using(crate::proofs::NumeralLaws::numeral_is, crate::proofs::NumeralLaws::grouped), unfolding(crate::specs::Text::heading_words))]
    fn fmt<W: fmt::Write>(&self, f: &mut fmt::Formatter<W>) -> fmt::Result {
        let Self {
            vertices,
            jobs,
            steps,
        } = *self;
        write!(f, "vertices {vertices} jobs {jobs} steps {steps}")
    }
}

// A step of a vertex, and what it answered.
#[derive(Clone, Copy)]
pub struct Step {
    pub vertex: u32,
    pub answer: Answer,
}

impl Step {
    #[tactic(auto, using(crate::proofs::LineLengths::step_short))]
    pub(crate) fn of(vertex: u32, answer: Answer) -> Self
        ensures is { result ≡ record { vertex = vertex; answer = answer } }
        ensures short { length (step_text vertex (said answer)) ≤ LINE_BYTES }
    {
        Self { vertex, answer }
    }
}

impl fmt::Display for Step {
    ghost output = { λ s. Some (step_words s.vertex (said s.answer)) };

    #[tactic(auto, using(crate::proofs::NumeralLaws::numeral_is, crate::proofs::NumeralLaws::grouped), unfolding(crate::specs::Text::step_words))]
    fn fmt<W: fmt::Write>(&self, f: &mut fmt::Formatter<W>) -> fmt::Result {
        let Self { vertex, answer } = *self;
        let said = Said(answer);
        write!(f, "{vertex} {said}")
    }
}

// What a step answered.
#[derive(Clone, Copy)]
struct Said(Answer);

impl fmt::Display for Said {
    ghost output = { λ s. Some (answer_text (said s.0)) };

    #[tactic(auto, using(crate::proofs::NumeralLaws::numeral_is, crate::proofs::NumeralLaws::grouped), unfolding(crate::specs::Text::answer_text))]
    fn fmt<W: fmt::Write>(&self, f: &mut fmt::Formatter<W>) -> fmt::Result {
        match self.0 {
            Answer::Start => write!(f, "start"),
            Answer::New(v) => write!(f, "new {v}"),
            Answer::Edge(a, b) => write!(f, "edge {a} {b}"),
            Answer::Release(v) => write!(f, "release {v}"),
            Answer::Transfer(v) => write!(f, "transfer {v}"),
            Answer::Job { number, .. } => write!(f, "job {number}"),
            Answer::Stop => write!(f, "stop"),
            Answer::Yield => write!(f, "yield"),
            Answer::Refused(refusal) => write!(f, "{}", Refused(refusal)),
        }
    }
}

// A refused program, or a refused step.
#[derive(Clone, Copy)]
pub struct Refused(pub Refusal);

impl fmt::Display for Refused {
    ghost output = { λ r. Some (refused_words (number r.0.reason) r.0.place) };

    #[tactic(auto, using(crate::proofs::NumeralLaws::numeral_is, crate::proofs::NumeralLaws::grouped), unfolding(crate::specs::Text::refused_words))]
    fn fmt<W: fmt::Write>(&self, f: &mut fmt::Formatter<W>) -> fmt::Result {
        let Refusal { reason, place } = self.0;
        let number = reason.number();
        write!(f, "refused {number} {place}")
    }
}
