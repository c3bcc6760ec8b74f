// A step: what is due is done.
ghost use Rattle.std.specs.Prelude.{◌≡◌, ◌+◌, ◌<◌, true};
ghost use Rattle.graph.specs.Tables.{lent, vertex_rows};
ghost use Rattle.machine.specs.Stepping.{step_limit, start_due, stored};
ghost use Rattle.machine.specs.Traces.{Stepped};
ghost use Rattle.engine.specs.Answers.{said, own_words, due_of};
ghost use Rattle.engine.specs.Internal.Underway.{IsDue, DoesDue, Starts};

use crate::next::{FIRST, SECOND, THIRD, next_due, start_due};
use crate::{Answer, Done, Due, Own};
use graph::Tally;
use graph::commands::{command_checked, start};
use graph::rows::{FUTURE, PHASE, PLACE, VERTEX_WORDS};
use program::Edition;

// One step of `vertex`, with the tally by value.
pub fn step_by_value(
    program: &[u8],
    vertices: &mut [u32],
    edges: &mut [u32],
    tally: Tally,
    edition: Edition,
    vertex: u32,
) -> Done
    ensures { Stepped edition program.now (lent vertices.old edges.old tally) vertex (said result.answer) (lent vertices.new edges.new result.tally) }
{
    if start_due(vertices, edges, tally, vertex) {
        return start_step(vertices, edges, tally, vertex);
    }
    let next = next_due(program, vertices, edges, tally, edition, vertex);
    do_due(vertices, edges, tally, vertex, next)
}

// The step of a vertex at which a start is due: the command start. It changes none of the vertex's own words.
pub(crate) fn start_step(vertices: &mut [u32], edges: &[u32], tally: Tally, vertex: u32) -> Done
    requires { start_due (lent vertices.old edges.now tally) vertex ≡ true }
    ensures { Starts (lent vertices.old edges.now tally) vertex (said result.answer) (lent vertices.new edges.now result.tally) }
{
    let done = start(vertices, edges, tally, vertex);
    let answer = Answer::from(done.answer);
    if answer.is_refused() {
        return Done {
            answer,
            tally: done.tally,
        };
    }
    Done {
        answer,
        tally: counted(done.tally),
    }
}

// Does what is due at a step of `vertex`.
pub(crate) fn do_due(
    vertices: &mut [u32],
    edges: &mut [u32],
    tally: Tally,
    vertex: u32,
    next: Due,
) -> Done
    requires { IsDue (lent vertices.old edges.old tally) vertex (due_of next) }
    ensures { DoesDue (lent vertices.old edges.old tally) vertex (due_of next) (said result.answer) (lent vertices.new edges.new result.tally) }
{
    match next {
        Due::Refused(reason) => Done {
            answer: Answer::Refused(reason.into()),
            tally,
        },
        Due::Job {
            number,
            offset,
            own,
        } => {
            store(vertices, vertex as usize, own);
            Done {
                answer: Answer::Job { number, offset },
                tally: counted(tally),
            }
        }
        Due::Command { command, own } => {
            let done = command_checked(vertices, edges, tally, command);
            let answer = Answer::from(done.answer);
            if answer.is_refused() {
                return Done {
                    answer,
                    tally: done.tally,
                };
            }
            store(vertices, vertex as usize, own);
            Done {
                answer,
                tally: counted(done.tally),
            }
        }
    }
}

// One step more.
pub fn counted(tally: Tally) -> Tally
    requires { tally.steps < step_limit }
    ensures { (result.made ≡ tally.made) × (result.held ≡ tally.held) × (result.steps ≡ tally.steps + 1) }
{
    Tally {
        steps: tally.steps + 1,
        ..tally
    }
}

// Stores a vertex's own words.
#[tactic(auto, unfolding(machine::specs::Stepping::stored))]
pub fn store(vertices: &mut [u32], vertex: usize, own: Own)
    requires { vertex < vertex_rows vertices.old }
    ensures { vertices.new ≡ stored vertices.old vertex (own_words own) }
{
    let at = VERTEX_WORDS * vertex;
    vertices[at + PLACE] = own.place;
    vertices[at + PHASE] = own.phase;
    vertices[at + FIRST] = own.first;
    vertices[at + SECOND] = own.second;
    vertices[at + THIRD] = own.third;
    vertices[at + FUTURE] = own.latest;
}
