// The commands of an executing vertex, done on an index. Each looks for the first refusal that is due, as `graph` does on the edge table, and
// stores only where there is none. What has several callers is compiled into the loop of a walk all the same, so that results are not written to memory.
ghost use Rattle.std.specs.Prelude.{◌≡◌, true, false, List, ℕ, ◌+◌, ◌<◌, ◌≤◌, max};
ghost use Rattle.graph.specs.Tables.{lent, usable_limit, vertex_rows, edge_rows};
ghost use Rattle.graph.specs.Sound.{sound};
ghost use Rattle.graph.specs.Commands.{ends_refusal, adds_nothing, append_refusal, transfer_refusal};
ghost use Rattle.graph.specs.declared.Command.TheVariants.{NewTd, NewEdge, Release, Transfer, Stop, Yield};
ghost use Rattle.graph.specs.Internal.Checks.{is_start};
ghost use Rattle.index.specs.Layout.{row_limit, nowhere, Indexed};
ghost use Rattle.index.specs.Table.{live_rows, table_of};
ghost use Rattle.index.specs.Underway.{state_of, tried, Ready, Executes, Changes, caller_of};
ghost use Rattle.refusal.specs.Reasons.{due_number};

use crate::layout::NOWHERE;
use crate::rows::{append, is_held, leads_out, lower_targets, move_out};
use crate::search::reaches;
use crate::{Changed, Course};
use graph::rows::{
    FINISHED, FUTURE, NEW, RELEASED, STATUS, VERTEX_WORDS, make_row, more_into, set_status,
    vertex_rows,
};
use graph::{Answer, Command, Tally};
use refusal::Reason;

// What was tried, as a command gives it: where it is refused, nothing changes.
#[inline(always)]
fn settled(attempt: Result<Changed, Reason>, course: Course) -> Changed
    ensures { result ≡ tried attempt course }
{
    attempt.unwrap_or_else(|reason| opening_nobody(Answer::Refused(reason.into()), course))
}

// Nobody may step after it who could not before.
fn opening_nobody(answer: Answer, course: Course) -> Changed
    ensures { result ≡ record { answer = answer; course = course; lowest = nowhere; highest = 0 } }
{
    Changed {
        answer,
        course,
        lowest: NOWHERE,
        highest: 0,
    }
}

// Makes the next vertex, new, with the place and scope handed in, the caller's latest open future, and its other words 0.
fn new_td(
    vertices: &mut [u32],
    index: &[u32],
    limit: u32,
    course: Course,
    caller: u32,
    place: u32,
    scope: u32,
) -> Result<Changed, Reason>
    requires { Ready vertices.old index.now course limit × Executes vertices.old course caller }
    ensures { Changes (NewTd caller place scope) vertices.old index.now course limit (tried result course) vertices.new index.now }
{
    let tally = course.tally;
    let made = tally.made;
    if vertex_rows(vertices) <= made as usize {
        return Err(Reason::NoVertexRow);
    }
    let future = vertices[VERTEX_WORDS * (caller as usize) + FUTURE];
    make_row(vertices, made as usize, place, scope, future);
    let grown = Course {
        tally: Tally {
            made: made + 1,
            ..tally
        },
        ..course
    };
    Ok(opening_nobody(Answer::New(made), grown))
}

// Adds the edge from `source` to `target`. Out of a finished vertex, or held already, it adds nothing and is accepted.
fn new_edge(
    vertices: &mut [u32],
    index: &mut [u32],
    limit: u32,
    course: Course,
    caller: u32,
    source: u32,
    target: u32,
) -> Result<Changed, Reason>
    requires { Ready vertices.old index.old course limit × Executes vertices.old course caller × (course.used < row_limit) }
    ensures { Changes (NewEdge caller source target) vertices.old index.old course limit (tried result course) vertices.new index.new }
{
    ends_refusal(vertices, course, caller, source, target)?;
    if adds_nothing(vertices, index, course, source, target) {
        return Ok(opening_nobody(Answer::Edge(source, target), course));
    }
    append_refusal(index, limit, course, source, target)?;
    append(index, course.used as usize, source, target);
    more_into(vertices, target as usize);
    Ok(opening_nobody(Answer::Edge(source, target), one_more_edge(course)))
}

// The refusals that an edge's ends cause: 20, 33, which spares the caller. Here and below, the tests are those of graph's `SoundTables`, but over the
// lists of the index and with what a walk knows left out, which saves a step of a run its scans.
#[inline(always)]
pub(crate) fn ends_refusal(
    vertices: &[u32],
    course: Course,
    caller: u32,
    source: u32,
    target: u32,
) -> Result<(), Reason>
    requires { Executes vertices.now course caller × (course.tally.made ≤ vertex_rows vertices.now) }
    ensures { (e : List ℕ) → sound (lent vertices.now e course.tally) ≡ true → due_number result ≡ ends_refusal (lent vertices.now e course.tally) caller source target 0 }
{
    let tally = course.tally;
    if tally.made <= source || tally.made <= target {
        return Err(Reason::NoSuchVertex);
    }
    let status = vertices[VERTEX_WORDS * (target as usize) + STATUS];
    if status == NEW || status == RELEASED || target == caller {
        return Ok(());
    }
    Err(Reason::TargetNotWaiting)
}

// An edge from `source` to `target` adds nothing: its source is finished, or it is held already.
#[inline(always)]
pub(crate) fn adds_nothing(
    vertices: &[u32],
    index: &[u32],
    course: Course,
    source: u32,
    target: u32,
) -> bool
    requires indexed { Indexed index.now course.used × (course.tally.held ≡ live_rows index.now course.used) }
    requires source_lt_made { (source < course.tally.made) × (course.tally.made ≤ vertex_rows vertices.now) }
    ensures { (e : List ℕ) → result ≡ adds_nothing (state_of vertices.now index.now course e) source target }
{
    vertices[VERTEX_WORDS * (source as usize) + STATUS] == FINISHED
        || is_held(index, course.used as usize, source, target)
}

// The refusals of an edge that is to be appended: 35, 32.
#[inline(always)]
pub(crate) fn append_refusal(
    index: &[u32],
    limit: u32,
    course: Course,
    source: u32,
    target: u32,
) -> Result<(), Reason>
    requires indexed { Indexed index.now course.used × (course.tally.held ≡ live_rows index.now course.used) }
    requires held_le_peak { (course.tally.held ≤ course.peak) × (course.peak ≤ limit) × (source < usable_limit) × (target < usable_limit) }
    ensures { (e : List ℕ) → edge_rows e ≡ limit → due_number result ≡ append_refusal (table_of index.now course.used course.peak e) course.tally.held source target }
{
    if source == target || reaches(index, course.used as usize, target, source) {
        return Err(Reason::ClosesCycle);
    }
    if limit <= course.tally.held {
        return Err(Reason::NoEdgeRow);
    }
    Ok(())
}

// A row more is used, and an edge more is held.
fn one_more_edge(course: Course) -> Course
    requires { (course.tally.held < usable_limit) × (course.used < row_limit) }
    ensures { result ≡ record { tally = record { made = course.tally.made; held = course.tally.held + 1; steps = course.tally.steps }; used = course.used + 1; peak = max course.peak (course.tally.held + 1) } }
{
    let tally = course.tally;
    let held = tally.held + 1;
    Course {
        tally: Tally { held, ..tally },
        used: course.used + 1,
        peak: course.peak.max(held),
    }
}

// Turns a new vertex released.
fn release(
    vertices: &mut [u32],
    index: &[u32],
    limit: u32,
    course: Course,
    caller: u32,
    vertex: u32,
) -> Result<Changed, Reason>
    requires { Ready vertices.old index.now course limit × Executes vertices.old course caller }
    ensures { Changes (Release caller vertex) vertices.old index.now course limit (tried result course) vertices.new index.now }
{
    let tally = course.tally;
    if tally.made <= vertex {
        return Err(Reason::NoSuchVertex);
    }
    if vertices[VERTEX_WORDS * (vertex as usize) + STATUS] != NEW {
        return Err(Reason::ReleaseNotNew);
    }
    set_status(vertices, vertex as usize, RELEASED);
    Ok(Changed {
        answer: Answer::Release(vertex),
        course,
        lowest: vertex,
        highest: vertex,
    })
}

// Gives each edge out of `caller` the source `vertex`, which is new and has no edge out.
fn transfer(
    vertices: &[u32],
    index: &mut [u32],
    limit: u32,
    course: Course,
    caller: u32,
    vertex: u32,
) -> Result<Changed, Reason>
    requires { Ready vertices.now index.old course limit × Executes vertices.now course caller }
    ensures { Changes (Transfer caller vertex) vertices.now index.old course limit (tried result course) vertices.now index.new }
{
    transfer_refusal(vertices, index, course, caller, vertex)?;
    move_out(index, course.used as usize, caller, vertex);
    Ok(opening_nobody(Answer::Transfer(vertex), course))
}

// transfer: 20, 37, 38, 35.
#[inline(always)]
pub(crate) fn transfer_refusal(
    vertices: &[u32],
    index: &[u32],
    course: Course,
    caller: u32,
    vertex: u32,
) -> Result<(), Reason>
    requires indexed { Indexed index.now course.used × (course.tally.held ≡ live_rows index.now course.used) }
    requires executes { Executes vertices.now course caller × (course.tally.made ≤ vertex_rows vertices.now) }
    ensures { (e : List ℕ) → sound (state_of vertices.now index.now course e) ≡ true → due_number result ≡ transfer_refusal (state_of vertices.now index.now course e) caller vertex }
{
    let tally = course.tally;
    if tally.made <= vertex {
        return Err(Reason::NoSuchVertex);
    }
    if vertices[VERTEX_WORDS * (vertex as usize) + STATUS] != NEW {
        return Err(Reason::TransferNotNew);
    }
    if leads_out(index, course.used as usize, vertex) {
        return Err(Reason::TransferHasEdgeOut);
    }
    if reaches(index, course.used as usize, caller, vertex) {
        return Err(Reason::ClosesCycle);
    }
    Ok(())
}

// Finishes `caller` and drops its edges out.
fn stop(vertices: &mut [u32], index: &mut [u32], limit: u32, course: Course, caller: u32) -> Changed
    requires { Ready vertices.old index.old course limit × Executes vertices.old course caller }
    ensures { Changes (Stop caller) vertices.old index.old course limit result vertices.new index.new }
{
    set_status(vertices, caller as usize, FINISHED);
    let lowered = lower_targets(vertices, index, course.used as usize, caller);
    move_out(index, course.used as usize, caller, NOWHERE);
    let tally = course.tally;
    Changed {
        answer: Answer::Stop,
        course: Course {
            tally: Tally {
                held: tally.held - lowered.dropped,
                ..tally
            },
            ..course
        },
        lowest: lowered.lowest,
        highest: lowered.highest,
    }
}

// Turns `caller` released, so that it can start again. Its edges stay.
fn yield_caller(
    vertices: &mut [u32],
    index: &[u32],
    limit: u32,
    course: Course,
    caller: u32,
) -> Changed
    requires { Ready vertices.old index.now course limit × Executes vertices.old course caller }
    ensures { Changes (Yield caller) vertices.old index.now course limit result vertices.new index.now }
{
    set_status(vertices, caller as usize, RELEASED);
    opening_nobody(Answer::Yield, course)
}

// Any command of an executing vertex, where a row of the index is left.
#[inline(always)]
pub fn command(
    vertices: &mut [u32],
    index: &mut [u32],
    limit: u32,
    course: Course,
    given: Command,
) -> Changed
    requires { Ready vertices.old index.old course limit × Executes vertices.old course (caller_of given) × (course.used < row_limit) × (is_start given ≡ false) }
    ensures { Changes given vertices.old index.old course limit result vertices.new index.new }
{
    settled(command_tried(vertices, index, limit, course, given), course)
}

// The same, or why it is refused.
#[inline(always)]
fn command_tried(
    vertices: &mut [u32],
    index: &mut [u32],
    limit: u32,
    course: Course,
    given: Command,
) -> Result<Changed, Reason>
    requires { Ready vertices.old index.old course limit × Executes vertices.old course (caller_of given) × (course.used < row_limit) × (is_start given ≡ false) }
    ensures { Changes given vertices.old index.old course limit (tried result course) vertices.new index.new }
{
    match given {
        Command::NewTd {
            caller,
            place,
            scope,
        } => new_td(vertices, index, limit, course, caller, place, scope),
        Command::NewEdge {
            caller,
            source,
            target,
        } => new_edge(vertices, index, limit, course, caller, source, target),
        Command::Release { caller, vertex } => {
            release(vertices, index, limit, course, caller, vertex)
        }
        Command::Transfer { caller, vertex } => {
            transfer(vertices, index, limit, course, caller, vertex)
        }
        Command::Start { .. } => Err(Reason::UnsoundTables),
        Command::Stop { caller } => Ok(stop(vertices, index, limit, course, caller)),
        Command::Yield { caller } => Ok(yield_caller(vertices, index, limit, course, caller)),
    }
}
