// A step on an index of the edges, as a walk takes it.
ghost use Rattle.std.specs.Prelude.{◌≡◌, true, ◌+◌, ◌*◌, ◌<◌, ◌≤◌, length};
ghost use Rattle.graph.specs.Tables.{vertex_words};
ghost use Rattle.index.specs.Layout.{row_limit};
ghost use Rattle.index.specs.Underway.{Ready, Executes, may_step};
ghost use Rattle.machine.specs.Stepping.{step_limit};
ghost use Rattle.engine.specs.Answers.{due_of};
ghost use Rattle.engine.specs.Internal.Underway.{DueThere};
ghost use Rattle.walks.specs.Internal.Handing.{SameTables};
ghost use Rattle.walks.specs.Internal.Walking.{DueOn, DoesOn, StepsOn};

use crate::Moved;
use engine::next::{Executing, own_words};
use engine::steps::{counted, store};
use engine::{Answer, Due};
use graph::rows::{EXECUTING, RELEASED, SCOPE, STATUS, VERTEX_WORDS, set_status};
use index::Course;
use index::layout::NOWHERE;
use program::marked::MarkedProgram;

// The tables of a walk: the vertices, and an index of their edges for a table of `limit` rows.
#[derive(Drop)]
pub(crate) struct WalkTables<'a> {
    pub vertices: &'a mut [u32],
    pub index: &'a mut [u32],
    pub limit: u32,
}

impl<'a> WalkTables<'a> {
    // One step of a vertex that may step, where a row of the index is left and steps are.
    pub(crate) fn step(&mut self, program: &MarkedProgram, course: Course, vertex: u32) -> Moved
        requires { Ready self.old.vertices.now self.old.index.now course self.old.limit × (course.used < row_limit) × (course.tally.steps < step_limit) × (vertex < course.tally.made) × (may_step self.old.vertices.now vertex ≡ true) }
        ensures { StepsOn program.now.edition program.now.bytes.now self.old.vertices.now self.old.index.now course self.old.limit vertex result self.new.vertices.now self.new.index.now × SameTables self.old self.new }
    {
        let at = vertex as usize;
        if self.vertices[VERTEX_WORDS * at + STATUS] == RELEASED {
            set_status(self.vertices, at, EXECUTING);
            return Moved {
                answer: Answer::Start,
                course: one_step(course),
                lowest: NOWHERE,
                highest: 0,
            };
        }
        let next = self.due(program, course.tally.made, vertex);
        self.do_due(course, vertex, next)
    }

    // What is due at a step of a vertex that executes: `ended_due` with the item reader of a walk (`item_by_ends` says why there are two).
    fn due(&self, program: &MarkedProgram, made: u32, vertex: u32) -> Due
        requires { (vertex < made) × (vertex_words * made ≤ length self.now.vertices.now) }
        ensures { DueThere program.now.edition program.now.bytes.now self.now.vertices.now made vertex (due_of result) }
    {
        let at = Executing {
            vertex,
            scope: self.vertices[VERTEX_WORDS * (vertex as usize) + SCOPE],
            own: own_words(self.vertices, vertex as usize),
            made,
        };
        let item = program.item_by_ends(at.own.place);
        at.by_item(program.bytes, item, self.vertices, program.edition)
    }

    // Does what is due at a step of an executing vertex.
    fn do_due(&mut self, course: Course, vertex: u32, next: Due) -> Moved
        requires ready { Ready self.old.vertices.now self.old.index.now course self.old.limit × (course.used < row_limit) × (course.tally.steps < step_limit) × Executes self.old.vertices.now course vertex }
        requires due_on { DueOn self.old.vertices.now self.old.index.now course self.old.limit vertex (due_of next) }
        ensures { DoesOn self.old.vertices.now self.old.index.now course self.old.limit vertex (due_of next) result self.new.vertices.now self.new.index.now × SameTables self.old self.new }
    {
        match next {
            Due::Refused(reason) => Moved {
                answer: Answer::Refused(reason.into()),
                course,
                lowest: NOWHERE,
                highest: 0,
            },
            Due::Job {
                number,
                offset,
                own,
            } => {
                store(self.vertices, vertex as usize, own);
                Moved {
                    answer: Answer::Job { number, offset },
                    course: one_step(course),
                    lowest: NOWHERE,
                    highest: 0,
                }
            }
            Due::Command { command, own } => {
                let changed = index::commands::command(
                    self.vertices,
                    self.index,
                    self.limit,
                    course,
                    command,
                );
                let answer = Answer::from(changed.answer);
                if changed.answer.is_refused() {
                    return Moved {
                        answer,
                        course: changed.course,
                        lowest: NOWHERE,
                        highest: 0,
                    };
                }
                store(self.vertices, vertex as usize, own);
                Moved {
                    answer,
                    course: one_step(changed.course),
                    lowest: changed.lowest,
                    highest: changed.highest,
                }
            }
        }
    }
}

// The same course, one step further.
fn one_step(course: Course) -> Course
    requires { course.tally.steps < step_limit }
    ensures { (result.tally.made ≡ course.tally.made) × (result.tally.held ≡ course.tally.held) × (result.tally.steps ≡ course.tally.steps + 1) × (result.used ≡ course.used) × (result.peak ≡ course.peak) }
{
    Course {
        tally: counted(course.tally),
        ..course
    }
}
