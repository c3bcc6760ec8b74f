// A look at a command of an executing vertex before it is given: whether it would be accepted, and what it hinges on. Nothing is stored.
ghost use Rattle.std.specs.Prelude.{◌≡◌, false, List, ℕ, ◌≤◌, eqb, ltb};
ghost use Rattle.graph.specs.declared.Command.TheVariants.{NewEdge, Transfer};
ghost use Rattle.graph.specs.Tests.{both};
ghost use Rattle.graph.specs.Tables.{vertex_rows, status};
ghost use Rattle.graph.specs.Internal.Checks.{is_start};
ghost use Rattle.index.specs.Underway.{Ready, Executes, caller_of};
ghost use Rattle.index.specs.Asking.{Foretells, Asks};

use crate::commands::{adds_nothing, append_refusal, ends_refusal, transfer_refusal};
use crate::{Course, Pair};
use graph::Command;
use graph::rows::{FINISHED, NEW, STATUS, VERTEX_WORDS, vertex_rows};

// The command would be accepted.
pub fn would_take(
    vertices: &[u32],
    index: &[u32],
    limit: u32,
    course: Course,
    given: Command,
) -> bool
    requires { Ready vertices.now index.now course limit × Executes vertices.now course (caller_of given) × (is_start given ≡ false) }
    ensures { Foretells vertices.now index.now course limit given result }
{
    match given {
        Command::NewTd { .. } => row_left(vertices, course),
        Command::NewEdge {
            caller,
            source,
            target,
        } => takes_edge(vertices, index, limit, course, caller, source, target),
        Command::Release { vertex, .. } => has_status(vertices, course, vertex, NEW),
        Command::Transfer { caller, vertex } => {
            transfer_refusal(vertices, index, course, caller, vertex).is_ok()
        }
        Command::Start { .. } => false,
        Command::Stop { .. } | Command::Yield { .. } => true,
    }
}

// A vertex row is left.
fn row_left(vertices: &[u32], course: Course) -> bool
    ensures { result ≡ ltb course.tally.made (vertex_rows vertices.now) }
{
    (course.tally.made as usize) < vertex_rows(vertices)
}

// A vertex is made, and its status is the one `wanted`.
fn has_status(vertices: &[u32], course: Course, vertex: u32, wanted: u32) -> bool
    requires { course.tally.made ≤ vertex_rows vertices.now }
    ensures { result ≡ both (ltb vertex course.tally.made) (eqb (status vertices.now vertex) wanted) }
{
    vertex < course.tally.made && vertices[VERTEX_WORDS * (vertex as usize) + STATUS] == wanted
}

// An edge from `source` to `target` would be accepted.
fn takes_edge(
    vertices: &[u32],
    index: &[u32],
    limit: u32,
    course: Course,
    caller: u32,
    source: u32,
    target: u32,
) -> bool
    requires { Ready vertices.now index.now course limit × Executes vertices.now course caller }
    ensures { Foretells vertices.now index.now course limit (NewEdge caller source target) result }
{
    if ends_refusal(vertices, course, caller, source, target).is_err() {
        return false;
    }
    if adds_nothing(vertices, index, course, source, target) {
        return true;
    }
    append_refusal(index, limit, course, source, target).is_ok()
}

// What the command hinges on.
pub fn asked(vertices: &[u32], course: Course, given: Command) -> Option<Pair>
    requires { Executes vertices.now course (caller_of given) × (course.tally.made ≤ vertex_rows vertices.now) }
    ensures { (x : List ℕ) (limit : ℕ) → Ready vertices.now x course limit → Asks vertices.now x course limit given result }
{
    match given {
        Command::NewEdge {
            caller,
            source,
            target,
        } => asked_edge(vertices, course, caller, source, target),
        Command::Transfer { caller, vertex } => asked_transfer(vertices, course, caller, vertex),
        _ => None,
    }
}

// newEdge, whose ends cause no refusal, hinges on a path back, unless its source is finished.
fn asked_edge(
    vertices: &[u32],
    course: Course,
    caller: u32,
    source: u32,
    target: u32,
) -> Option<Pair>
    requires { Executes vertices.now course caller × (course.tally.made ≤ vertex_rows vertices.now) }
    ensures { (x : List ℕ) (limit : ℕ) → Ready vertices.now x course limit → Asks vertices.now x course limit (NewEdge caller source target) result }
{
    if ends_refusal(vertices, course, caller, source, target).is_err() {
        return None;
    }
    if has_status(vertices, course, source, FINISHED) {
        return None;
    }
    Some(Pair {
        start: target,
        goal: source,
        appends: true,
    })
}

// transfer to a new vertex hinges on a path from the caller to it.
fn asked_transfer(vertices: &[u32], course: Course, caller: u32, vertex: u32) -> Option<Pair>
    requires { Executes vertices.now course caller × (course.tally.made ≤ vertex_rows vertices.now) }
    ensures { (x : List ℕ) (limit : ℕ) → Ready vertices.now x course limit → Asks vertices.now x course limit (Transfer caller vertex) result }
{
    if has_status(vertices, course, vertex, NEW) {
        return Some(Pair {
            start: caller,
            goal: vertex,
            appends: false,
        });
    }
    None
}
