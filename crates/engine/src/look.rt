// Looking for the lowest vertex whose step would be accepted. Nothing is stored here.
ghost use Rattle.std.specs.Prelude.{◌≡◌, true, is_ok, length, ◌+◌, ◌*◌, ◌<◌, ◌≤◌};
ghost use Rattle.graph.specs.Tables.{lent, vertex_words, status, EXECUTING};
ghost use Rattle.graph.specs.OfTables.{lent_of};
ghost use Rattle.graph.specs.Commands.{command};
ghost use Rattle.graph.specs.Answers as of_graph;
ghost use Rattle.machine.specs.Stepping.{step_limit};
ghost use Rattle.machine.specs.Running.{can_step, lowest, choice};
ghost use Rattle.engine.specs.Answers.{due_of, choice_of, vertex_of};
ghost use Rattle.engine.specs.Internal.Underway.{may_start, takes};

use crate::Due;
use crate::next::{ended_due, is_steppable};
use graph::refusals::start_refusal;
use graph::rows::{EXECUTING, IN_COUNT, RELEASED, STATUS, VERTEX_WORDS};
use graph::sound::SoundTables;
use graph::{Command, Tally};
use program::Edition;
use program::ends::mark_ends;
use program::format::PROGRAM_BYTES;
use program::marked::MarkedProgram;
use refusal::{Reason, Refusal};

// The lowest vertex whose step would be accepted.
pub fn lowest_vertex(
    program: &[u8],
    vertices: &[u32],
    edges: &[u32],
    tally: Tally,
    edition: Edition,
) -> Result<Option<u32>, Refusal>
    ensures { choice_of result ≡ choice edition program.now (lent vertices.now edges.now tally) }
{
    if !is_steppable(vertices, edges, tally) {
        return Err(Reason::UnsoundTables.into());
    }
    let tables = SoundTables {
        vertices,
        edges,
        tally,
    };
    let mut ends = [0u16; PROGRAM_BYTES];
    mark_ends(program, edition, &mut ends);
    let program = MarkedProgram {
        bytes: program,
        ends: &ends,
        edition,
    };
    Ok(lowest_able(&program, &tables))
}

// The lowest vertex that can step, on tables that take steps.
fn lowest_able(program: &MarkedProgram, tables: &SoundTables) -> Option<u32>
    requires { tables.now.tally.steps < step_limit }
    ensures { vertex_of result ≡ lowest program.now.edition program.now.bytes.now (lent_of tables.now) }
{
    (0..tables.tally.made).find(|&v| can_step(program, tables, v))
}

// A vertex can step: it may start, or it executes and what is due would be accepted.
fn can_step(program: &MarkedProgram, tables: &SoundTables, vertex: u32) -> bool
    requires { (tables.now.tally.steps < step_limit) × (vertex < tables.now.tally.made) }
    ensures { result ≡ can_step program.now.edition program.now.bytes.now (lent_of tables.now) vertex }
{
    let vertices = tables.vertices;
    if may_start(vertices, vertex as usize) {
        return true;
    }
    vertices[VERTEX_WORDS * (vertex as usize) + STATUS] == EXECUTING
        && can_go_on(program, tables, vertex)
}

// A vertex that executes can step: what is due would be accepted. It is called, since as a part of the look's loop it has room for what is due cleared
// for each vertex, also for those that do not execute: a look at finished ones then takes a third longer.
#[inline(never)]
fn can_go_on(program: &MarkedProgram, tables: &SoundTables, vertex: u32) -> bool
    requires { (tables.now.tally.steps < step_limit) × (vertex < tables.now.tally.made) × (status tables.now.vertices.now vertex ≡ EXECUTING) }
    ensures { result ≡ can_step program.now.edition program.now.bytes.now (lent_of tables.now) vertex }
{
    let next = ended_due(program, tables.vertices, tables.tally.made, vertex);
    would_take(tables, next)
}

// A vertex may start: it is released, and its word says that no edge leads into it.
#[tactic(auto, using(crate::proofs::DueLaws::dues), unfolding(crate::specs::Internal::Underway::may_start))]
pub(crate) fn may_start(vertices: &[u32], vertex: usize) -> bool
    requires { vertex_words * vertex + vertex_words ≤ length vertices.now }
    ensures { result ≡ may_start vertices.now vertex }
{
    vertices[VERTEX_WORDS * vertex + STATUS] == RELEASED
        && vertices[VERTEX_WORDS * vertex + IN_COUNT] == 0
}

// What is due would be accepted.
fn would_take(tables: &SoundTables, next: Due) -> bool
    ensures { result ≡ takes (lent_of tables.now) (due_of next) }
{
    match next {
        Due::Refused(_) => false,
        Due::Job { .. } => true,
        Due::Command { command, .. } => refusal(tables, command).is_ok(),
    }
}

// The refusal of a single command, if one is due.
fn refusal(tables: &SoundTables, given: Command) -> Result<(), Reason>
    ensures { is_ok result ≡ of_graph.accepted (command given (lent_of tables.now)).answer }
{
    match given {
        Command::NewTd { caller, .. } => tables.new_td_refusal(caller),
        Command::NewEdge {
            caller,
            source,
            target,
        } => tables.new_edge_refusal(caller, source, target),
        Command::Release { caller, vertex } => tables.release_refusal(caller, vertex),
        Command::Transfer { caller, vertex } => tables.transfer_refusal(caller, vertex),
        Command::Start { vertex } => {
            start_refusal(tables.vertices, tables.edges, tables.tally, vertex)
        }
        Command::Stop { caller } | Command::Yield { caller } => {
            tables.stop_or_yield_refusal(caller)
        }
    }
}
