// The calls with the tally by value and an answer of plain numbers.
ghost use Rattle.std.specs.Prelude.{◌≡◌};
ghost use Rattle.graph.specs.Tables.{lent};
ghost use Rattle.graph.specs.Commands.{opening};
ghost use Rattle.chains.specs.Showing.{show_chain};
ghost use Rattle.keshtiwol.specs.Numbers.{OpenReplied, Commanded, LoadReplied, Replied, RunReplied, DispatchReplied, LowestReplied, ChainReplied, by_numbers};
ghost use Rattle.keshtiwol.specs.Numbers.{command_of, edition_of, asked_of, load_in, step_in, run_in, dispatch_in, choice_in};

use crate::{DispatchReply, Done, Reply, RunReply};
use chains::showing::chain_by_value;
use engine::Answer;
use engine::load::load_by_value;
use engine::look::lowest_vertex;
use engine::steps::step_by_value;
use graph::commands::{command_by_value, open_by_value};
use graph::{Command, Tally};
use program::Edition;
use refusal::Reason;
use walks::LastStep;
use walks::dispatches::dispatch_by_value;
use walks::runs::run_by_value;

// The numbers of the commands, as hosts in C hand them over (include/keshtiwol.h).
pub const NEW_TD: u32 = 1;

pub const NEW_EDGE: u32 = 2;

pub const RELEASE: u32 = 3;

pub const TRANSFER: u32 = 4;

pub const START: u32 = 5;

pub const STOP: u32 = 6;

pub const YIELD: u32 = 7;

// The numbers of the editions, likewise.
pub const FIRST_EDITION: u32 = 1;

pub const SECOND_EDITION: u32 = 2;

pub(crate) fn open_to_numbers(vertices: &mut [u32], edges: &mut [u32], tally: Tally) -> Done<Reply>
    ensures { OpenReplied (opening (lent vertices.old edges.old tally)) result.answer (lent vertices.new edges.new result.tally) }
{
    let done = open_by_value(vertices, edges, tally);
    Done {
        answer: done.answer.into(),
        tally: done.tally,
    }
}

#[tactic(auto, unfolding(crate::specs::Numbers::if_known, crate::specs::Numbers::said_numbers))]
pub(crate) fn command_by_numbers(
    vertices: &mut [u32],
    edges: &mut [u32],
    tally: Tally,
    command: u32,
    caller: u32,
    first: u32,
    second: u32,
) -> Done<Reply>
    ensures { Commanded (by_numbers command caller first second (lent vertices.old edges.old tally)) result.answer (lent vertices.new edges.new result.tally) }
{
    let Some(given) = asked(command, caller, first, second) else {
        return Done {
            answer: Reason::NoSuchCommand.into(),
            tally,
        };
    };
    let done = command_by_value(vertices, edges, tally, given);
    Done {
        answer: Answer::from(done.answer).into(),
        tally: done.tally,
    }
}

// The command that these numbers ask for. Start's vertex, stop's and yield's are the caller; what a command does not name is not looked at.
#[tactic(auto, unfolding(crate::specs::Numbers::command_of))]
fn asked(command: u32, caller: u32, first: u32, second: u32) -> Option<Command>
    ensures { asked_of result ≡ command_of command caller first second }
{
    match command {
        NEW_TD => Some(Command::NewTd {
            caller,
            place: first,
            scope: second,
        }),
        NEW_EDGE => Some(Command::NewEdge {
            caller,
            source: first,
            target: second,
        }),
        RELEASE => Some(Command::Release {
            caller,
            vertex: first,
        }),
        TRANSFER => Some(Command::Transfer {
            caller,
            vertex: first,
        }),
        START => Some(Command::Start { vertex: caller }),
        STOP => Some(Command::Stop { caller }),
        YIELD => Some(Command::Yield { caller }),
        _ => None,
    }
}

// The edition with this number.
#[tactic(auto, unfolding(crate::specs::Numbers::edition_of))]
fn asked_edition(edition: u32) -> Option<Edition>
    ensures { asked_of result ≡ edition_of edition }
{
    match edition {
        FIRST_EDITION => Some(Edition::First),
        SECOND_EDITION => Some(Edition::Second),
        _ => None,
    }
}

#[tactic(auto, unfolding(crate::specs::Numbers::in_edition, crate::specs::Numbers::loading_numbers))]
pub(crate) fn load_to_numbers(
    program: &[u8],
    vertices: &mut [u32],
    edges: &mut [u32],
    tally: Tally,
    edition: u32,
) -> Done<Reply>
    ensures { LoadReplied (load_in (edition_of edition) program.now (lent vertices.old edges.old tally)) result.answer (lent vertices.new edges.new result.tally) }
{
    let Some(known) = asked_edition(edition) else {
        return Done {
            answer: Reason::NoSuchEdition.into(),
            tally,
        };
    };
    let done = load_by_value(program, vertices, edges, tally, known);
    Done {
        answer: done.answer.into(),
        tally: done.tally,
    }
}

#[tactic(auto, unfolding(crate::specs::Numbers::in_edition, crate::specs::Numbers::said_numbers))]
pub(crate) fn step_to_numbers(
    program: &[u8],
    vertices: &mut [u32],
    edges: &mut [u32],
    tally: Tally,
    edition: u32,
    vertex: u32,
) -> Done<Reply>
    ensures { Replied (step_in (edition_of edition) program.now (lent vertices.old edges.old tally) vertex) result.answer (lent vertices.new edges.new result.tally) }
{
    let Some(known) = asked_edition(edition) else {
        return Done {
            answer: Reason::NoSuchEdition.into(),
            tally,
        };
    };
    let done = step_by_value(program, vertices, edges, tally, known, vertex);
    Done {
        answer: done.answer.into(),
        tally: done.tally,
    }
}

#[tactic(auto, unfolding(crate::specs::Numbers::in_edition, crate::specs::Numbers::ending_numbers, crate::specs::Numbers::last_numbers))]
pub(crate) fn run_to_numbers(
    program: &[u8],
    vertices: &mut [u32],
    edges: &mut [u32],
    tally: Tally,
    edition: u32,
    budget: u32,
) -> Done<RunReply>
    ensures { RunReplied (run_in (edition_of edition) program.now (lent vertices.old edges.old tally) budget) result.answer (lent vertices.new edges.new result.tally) }
{
    let Some(known) = asked_edition(edition) else {
        return Done {
            answer: RunReply {
                ending: Reason::NoSuchEdition.into(),
                last: LastStep::NoStep.into(),
                taken: 0,
            },
            tally,
        };
    };
    let done = run_by_value(program, vertices, edges, tally, known, budget);
    Done {
        answer: RunReply {
            ending: done.answer.ending.into(),
            last: done.answer.last.into(),
            taken: done.answer.taken,
        },
        tally: done.tally,
    }
}

#[tactic(auto, unfolding(crate::specs::Numbers::in_edition, crate::specs::Numbers::dispatch_numbers))]
pub(crate) fn dispatch_to_numbers(
    program: &[u8],
    vertices: &mut [u32],
    edges: &mut [u32],
    tally: Tally,
    edition: u32,
    budget: u32,
    busy: &mut [u32],
    jobs: &mut [u32],
) -> Done<DispatchReply>
    ensures { DispatchReplied (dispatch_in (edition_of edition) program.now (lent vertices.old edges.old tally) budget busy.old jobs.old) result.answer (lent vertices.new edges.new result.tally) busy.new jobs.new }
{
    let Some(known) = asked_edition(edition) else {
        return Done {
            answer: DispatchReply {
                ending: Reason::NoSuchEdition.into(),
                taken: 0,
                handed: 0,
            },
            tally,
        };
    };
    let done = dispatch_by_value(program, vertices, edges, tally, known, budget, busy, jobs);
    Done {
        answer: DispatchReply {
            ending: done.answer.ending.into(),
            taken: done.answer.taken,
            handed: done.answer.handed,
        },
        tally: done.tally,
    }
}

#[tactic(auto, unfolding(crate::specs::Numbers::in_edition, crate::specs::Numbers::choice_numbers))]
pub(crate) fn lowest_to_numbers(
    program: &[u8],
    vertices: &[u32],
    edges: &[u32],
    tally: Tally,
    edition: u32,
) -> Reply
    ensures { LowestReplied (choice_in (edition_of edition) program.now (lent vertices.now edges.now tally)) result }
{
    let Some(known) = asked_edition(edition) else {
        return Reason::NoSuchEdition.into();
    };
    lowest_vertex(program, vertices, edges, tally, known).into()
}

pub(crate) fn chain_to_numbers(
    vertices: &[u32],
    edges: &[u32],
    tally: Tally,
    source: u32,
    target: u32,
    list: &mut [u32],
) -> Reply
    ensures { ChainReplied (show_chain (lent vertices.now edges.now tally) source target list.old) result list.new }
{
    chain_by_value(vertices, edges, tally, source, target, list).into()
}
