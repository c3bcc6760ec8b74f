// What replies say, in numbers. `specs/Numbers.antt` has the same for the definitions; the contracts hold the two together.
ghost use Rattle.std.specs.Prelude.{◌≡◌};
ghost use Rattle.refusal.specs.Reasons.{number};
ghost use Rattle.graph.specs.Answers as of_graph;
ghost use Rattle.chains.specs.Showing.{chain_said};
ghost use Rattle.engine.specs.Answers.{loading_said, said, choice_of};
ghost use Rattle.walks.specs.Answers.{ending_of, last_of, dispatch_ending_of};
ghost use Rattle.keshtiwol.specs.Numbers.{reply_numbers, opening_numbers, loading_numbers, said_numbers, ending_numbers, last_numbers, dispatch_numbers, choice_numbers, chain_numbers, numbers, said_number};

use crate::Reply;
use engine::Answer;
use refusal::{Reason, Refusal};
use walks::{DispatchEnding, Ending, LastStep};

// What a reply says, with the number that hosts know it by.
#[derive(Clone, Copy)]
pub enum Said {
    Refused = 0,
    Ready = 1,
    Start = 2,
    New = 3,
    Edge = 4,
    Release = 5,
    Transfer = 6,
    Job = 7,
    Stop = 8,
    Nothing = 9,
    Vertex = 10,
    Done = 11,
    Stuck = 12,
    Spent = 13,
    Chain = 14,
    Yield = 15,
    Waiting = 16,
    Full = 17,
}

impl Said {
    // A reply that says this of two values.
    fn of(self, first: u32, second: u32) -> Reply
        ensures { reply_numbers result ≡ numbers (said_number self) first second }
    {
        Reply {
            said: self as u32,
            first,
            second,
        }
    }
}

impl From<Refusal> for Reply {
    ghost from_gives = { λ refusal reply. reply_numbers reply ≡ numbers 0 (number refusal.reason) refusal.place };

    fn from(refusal: Refusal) -> Reply {
        Said::Refused.of(refusal.reason.number(), refusal.place)
    }
}

impl From<Reason> for Reply {
    ghost from_gives = { λ reason reply. reply_numbers reply ≡ numbers 0 (number reason) 0 };

    fn from(reason: Reason) -> Reply {
        Reply::from(Refusal::from(reason))
    }
}

// What the opening or a loading said.
#[tactic(auto, unfolding(crate::specs::Numbers::opening_numbers, crate::specs::Numbers::loading_numbers))]
impl From<Result<(), Refusal>> for Reply {
    ghost from_gives = { λ answer reply. (reply_numbers reply ≡ opening_numbers (of_graph.opening_said answer)) × (reply_numbers reply ≡ loading_numbers (loading_said answer)) };

    fn from(answer: Result<(), Refusal>) -> Reply {
        match answer {
            Ok(()) => Said::Ready.of(0, 0),
            Err(refusal) => refusal.into(),
        }
    }
}

// What a step said.
#[tactic(auto, unfolding(crate::specs::Numbers::said_numbers))]
impl From<Answer> for Reply {
    ghost from_gives = { λ answer reply. reply_numbers reply ≡ said_numbers (said answer) };

    fn from(answer: Answer) -> Reply {
        match answer {
            Answer::Start => Said::Start.of(0, 0),
            Answer::New(vertex) => Said::New.of(vertex, 0),
            Answer::Edge(source, target) => Said::Edge.of(source, target),
            Answer::Release(vertex) => Said::Release.of(vertex, 0),
            Answer::Transfer(vertex) => Said::Transfer.of(vertex, 0),
            Answer::Job { number, offset } => Said::Job.of(number, offset),
            Answer::Stop => Said::Stop.of(0, 0),
            Answer::Yield => Said::Yield.of(0, 0),
            Answer::Refused(refusal) => refusal.into(),
        }
    }
}

// How a run ended.
#[tactic(auto, unfolding(crate::specs::Numbers::ending_numbers))]
impl From<Ending> for Reply {
    ghost from_gives = { λ ending reply. reply_numbers reply ≡ ending_numbers (ending_of ending) };

    fn from(ending: Ending) -> Reply {
        match ending {
            Ending::Done => Said::Done.of(0, 0),
            Ending::Stuck => Said::Stuck.of(0, 0),
            Ending::Spent => Said::Spent.of(0, 0),
            Ending::Refused(refusal) => refusal.into(),
        }
    }
}

// Its last step.
#[tactic(auto, unfolding(crate::specs::Numbers::last_numbers))]
impl From<LastStep> for Reply {
    ghost from_gives = { λ last reply. reply_numbers reply ≡ last_numbers (last_of last) };

    fn from(last: LastStep) -> Reply {
        match last {
            LastStep::NoStep => Said::Nothing.of(0, 0),
            LastStep::Step(answer) => answer.into(),
        }
    }
}

// How a dispatch ended.
#[tactic(auto, unfolding(crate::specs::Numbers::dispatch_numbers))]
impl From<DispatchEnding> for Reply {
    ghost from_gives = { λ ending reply. reply_numbers reply ≡ dispatch_numbers (dispatch_ending_of ending) };

    fn from(ending: DispatchEnding) -> Reply {
        match ending {
            DispatchEnding::Done => Said::Done.of(0, 0),
            DispatchEnding::Stuck => Said::Stuck.of(0, 0),
            DispatchEnding::Waiting => Said::Waiting.of(0, 0),
            DispatchEnding::Full => Said::Full.of(0, 0),
            DispatchEnding::Spent => Said::Spent.of(0, 0),
            DispatchEnding::Refused(refusal) => refusal.into(),
        }
    }
}

// The lowest vertex that can step.
#[tactic(auto, unfolding(crate::specs::Numbers::choice_numbers))]
impl From<Result<Option<u32>, Refusal>> for Reply {
    ghost from_gives = { λ lowest reply. reply_numbers reply ≡ choice_numbers (choice_of lowest) };

    fn from(lowest: Result<Option<u32>, Refusal>) -> Reply {
        match lowest {
            Ok(Some(vertex)) => Said::Vertex.of(vertex, 0),
            Ok(None) => Said::Nothing.of(0, 0),
            Err(refusal) => refusal.into(),
        }
    }
}

// How many vertices a chain has.
#[tactic(auto, unfolding(crate::specs::Numbers::chain_numbers))]
impl From<Result<u32, Refusal>> for Reply {
    ghost from_gives = { λ answer reply. reply_numbers reply ≡ chain_numbers (chain_said answer) };

    fn from(answer: Result<u32, Refusal>) -> Reply {
        match answer {
            Ok(vertices) => Said::Chain.of(vertices, 0),
            Err(refusal) => refusal.into(),
        }
    }
}
