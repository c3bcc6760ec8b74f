// The examples at the limits (docs/ENGINE.md, "Examples"), on tables of 1,024 rows; a vertex altered to a place inside a
// number; edges that the host writes before the step that names them (note 3); and vertices altered to name another future, or none.
ghost use Rattle.std.specs.Prelude.{◌<◌, ◌≤◌};

use crate::lent::{Lent, NOTHING};
use crate::show::Which;
use crate::turns::turned;
use cases::changes::{Change, edge, vertex};
use graph::Tally;
use graph::rows::{
    EDGE_TABLE, EDGE_WORDS, FUTURE, PLACE, SOURCE, TARGET, VERTEX_TABLE, VERTEX_WORDS,
};
use program::{Edition, format};
use std::io;
use std::io::Write;

// An async of job 1, and job 2.
pub(crate) const ASYNC: [u8; 7] = [2, 1, 1, 0, 1, 2, 0];

// A fork of jobs 1 and 2, and job 3.
pub(crate) const FORK: [u8; 10] = [4, 1, 1, 0, 1, 2, 0, 1, 3, 0];

// A future, vertex 2, and a force of it.
const FORCED: [u8; 5] = [5, 0, 6, 0, 0];

// Two futures, vertices 2 and 4, and a force of the first.
const FORCED_FURTHER: [u8; 7] = [5, 0, 5, 0, 6, 1, 0];

pub(crate) fn all(out: &mut impl Write) -> io::Result<()> {
    asyncs(out, 31, 1, Edition::First)?;
    asyncs(out, 32, 1, Edition::Second)?;
    asyncs(out, 1022, 2, Edition::First)?;
    asyncs(out, 1023, 2, Edition::Second)?;
    forks(out, 340, Edition::First, 8192)?;
    forks(out, 341, Edition::First, 8192)?;
    forks(out, 341, Edition::Second, 3)?;
    forks(out, 511, Edition::Second, 8192)?;
    forks(out, 512, Edition::Second, 8192)?;
    altered(out)?;
    held_already(out)?;
    held_with_a_cycle(out)?;
    altered_futures(out)?;
    further_futures(out)
}

// So many asyncs, each inside the one before where the next byte is the next async, each behind the one before where the next byte but
// one is; run to their end.
fn asyncs(out: &mut impl Write, count: usize, apart: usize, edition: Edition) -> io::Result<()>
    requires { (0 < apart) × (apart ≤ 2) × (count ≤ 1300) }
{
    let mut program = [0u8; 4096];
    place(&mut program, format::ASYNC, count, apart);
    write!(out, "asyncs {count} ")?;
    on_all_rows(out, &program[..2 * count + 1], edition, 8192)
}

// So many empty forks, one behind the other.
fn forks(out: &mut impl Write, count: usize, edition: Edition, budget: u32) -> io::Result<()>
    requires { count ≤ 1300 }
{
    let mut program = [0u8; 4096];
    place(&mut program, format::FORK, count, 3);
    write!(out, "forks {count} ")?;
    on_all_rows(out, &program[..3 * count + 1], edition, budget)
}

// The first byte of so many items, so many bytes apart.
pub(crate) fn place(program: &mut [u8], first: u8, count: usize, apart: usize)
    requires { 0 < apart }
{
    for byte in program.iter_mut().step_by(apart).take(count) {
        *byte = first;
    }
}

fn on_all_rows(
    out: &mut impl Write,
    program: &[u8],
    edition: Edition,
    budget: u32,
) -> io::Result<()> {
    let mut vertices = [0u32; VERTEX_TABLE];
    let mut edges = [0u32; EDGE_TABLE];
    let mut lent = Lent {
        program,
        edition,
        vertices: &mut vertices,
        edges: &mut edges,
        tally: NOTHING,
    };
    loaded(out, &mut lent, budget)
}

// A loading, and a run.
pub(crate) fn loaded(out: &mut impl Write, lent: &mut Lent<'_>, budget: u32) -> io::Result<()> {
    write!(out, "{} ", Which(lent.edition))?;
    lent.write_load(out)?;
    lent.write_run(out, budget)
}

// A run of so many steps of a program of the first edition, changes, and the turns.
fn changed(
    out: &mut impl Write,
    program: &[u8],
    vertices: &mut [u32],
    edges: &mut [u32],
    budget: u32,
    changes: &[Change],
) -> io::Result<()> {
    let mut lent = Lent {
        program,
        edition: Edition::First,
        vertices,
        edges,
        tally: NOTHING,
    };
    loaded(out, &mut lent, budget)?;
    for &change in changes {
        lent.alter(change);
    }
    turned(out, &mut lent)
}

// In `01 01 00` nothing starts at 1.
fn altered(out: &mut impl Write) -> io::Result<()> {
    let mut vertices = [0u32; 2 * VERTEX_WORDS];
    let mut edges = [0u32; EDGE_WORDS];
    write!(out, "altered: ")?;
    let changes = [vertex(0, PLACE, 1)];
    changed(out, &[1, 1, 0], &mut vertices, &mut edges, 1, &changes)
}

// Vertex 0 has made vertex 2, and the host writes the edge 2 → 1 of the next step into the last row.
fn held_already(out: &mut impl Write) -> io::Result<()> {
    let mut vertices = [0u32; 3 * VERTEX_WORDS];
    let mut edges = [0u32; 2 * EDGE_WORDS];
    write!(out, "held already: ")?;
    let changes = [
        edge(1, SOURCE, 2),
        edge(1, TARGET, 1),
        Change::Tally(Tally {
            made: 3,
            held: 2,
            steps: 2,
        }),
    ];
    changed(out, &ASYNC, &mut vertices, &mut edges, 2, &changes)
}

// The same with a row to spare and with 1 → 2 besides: the step is taken, and in the end 1 and 2 wait for each other.
fn held_with_a_cycle(out: &mut impl Write) -> io::Result<()> {
    let mut vertices = [0u32; 3 * VERTEX_WORDS];
    let mut edges = [0u32; 4 * EDGE_WORDS];
    write!(out, "held with a cycle: ")?;
    let changes = [
        edge(1, SOURCE, 2),
        edge(1, TARGET, 1),
        edge(2, SOURCE, 1),
        edge(2, TARGET, 2),
        Change::Tally(Tally {
            made: 3,
            held: 3,
            steps: 2,
        }),
    ];
    changed(out, &ASYNC, &mut vertices, &mut edges, 2, &changes)
}

// The future's last command, step 6, sets the word of vertex 0, and the force's newEdge, step 8, reads it. Before the one and behind the other
// the word may be anything.
fn altered_futures(out: &mut impl Write) -> io::Result<()> {
    future(out, &FORCED, 1, 0, 9)?;
    future(out, &FORCED, 5, 0, 9)?;
    future(out, &FORCED, 6, 0, 0)?;
    future(out, &FORCED, 7, 0, 0)?;
    future(out, &FORCED, 7, 0, 1)?;
    future(out, &FORCED, 7, 0, 3)?;
    future(out, &FORCED, 7, 0, 4)?;
    future(out, &FORCED, 7, 0, 5)?;
    future(out, &FORCED, 7, 0, u32::MAX)?;
    future(out, &FORCED, 8, 0, 0)
}

// The force's newEdge is step 13. It follows the word of vertex 0 and then that of vertex 4.
fn further_futures(out: &mut impl Write) -> io::Result<()> {
    future(out, &FORCED_FURTHER, 12, 0, 0)?;
    future(out, &FORCED_FURTHER, 12, 0, 1)?;
    future(out, &FORCED_FURTHER, 12, 0, 6)?;
    future(out, &FORCED_FURTHER, 12, 0, 7)?;
    future(out, &FORCED_FURTHER, 12, 4, 0)?;
    future(out, &FORCED_FURTHER, 12, 4, 1)?;
    future(out, &FORCED_FURTHER, 12, 4, 4)?;
    future(out, &FORCED_FURTHER, 12, 4, 7)?;
    future(out, &FORCED_FURTHER, 12, 2, 9)?;
    future(out, &FORCED_FURTHER, 13, 4, 0)
}

// A run of so many steps, and then the vertex names another future.
fn future(out: &mut impl Write, program: &[u8], steps: u32, row: u32, word: u32) -> io::Result<()> {
    let mut vertices = [0u32; 8 * VERTEX_WORDS];
    let mut edges = [0u32; 8 * EDGE_WORDS];
    write!(out, "after {steps} steps vertex {row} names {word}: ")?;
    let changes = [vertex(row, FUTURE, word)];
    changed(out, program, &mut vertices, &mut edges, steps, &changes)
}
