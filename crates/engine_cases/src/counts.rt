// The number of edges into each vertex: whether it is true; and moments of a program at which the host has altered such a number, or another
// word. Then a step of a released vertex looks at the tally and its own row, and any other step, a run and a look at everything.
use crate::examples::{ASYNC, FORK, loaded};
use crate::lent::{Lent, NOTHING};
use cases::changes::{Change, edge, vertex};
use graph::Tally;
use graph::rows::{
    EDGE_WORDS, EXECUTING, FINISHED, IN_COUNT, MADE, NEW, PHASE, RELEASED, SCOPE, SOURCE, STATUS,
    TARGET, VERTEX_WORDS,
};
use program::Edition;
use std::io;
use std::io::Write;

// At the async's fourth step vertex 0 executes, 1 waits for it and for 2, and 2 is released with no edge into it. The fork yields at its
// eighth step.
pub(crate) fn all(out: &mut impl Write) -> io::Result<()> {
    statuses(out)?;
    ends(out)?;
    tallies(out)?;
    numbers(out)?;
    phases(out)?;
    scopes(out)?;
    firsts(out)
}

fn statuses(out: &mut impl Write) -> io::Result<()> {
    of_async(out, 4, vertex(1, STATUS, 0))?;
    of_async(out, 4, vertex(1, STATUS, FINISHED + 1))?;
    of_async(out, 4, vertex(0, STATUS, u32::MAX))?;
    of_async(out, 4, vertex(2, STATUS, FINISHED + 1))?;
    of_async(out, 2, vertex(1, STATUS, EXECUTING))?;
    of_fork(out, 3, vertex(2, STATUS, FINISHED))?;
    of_fork(out, 7, vertex(0, STATUS, RELEASED))?;
    of_fork(out, 8, vertex(0, STATUS, EXECUTING))?;
    of_fork(out, 8, vertex(0, STATUS, NEW))
}

fn ends(out: &mut impl Write) -> io::Result<()> {
    of_async(out, 4, edge(1, SOURCE, 3))?;
    of_async(out, 4, edge(0, TARGET, 3))?;
    of_async(out, 4, edge(0, TARGET, u32::MAX))?;
    of_fork(out, 3, edge(0, TARGET, 0))?;
    of_fork(out, 4, edge(1, SOURCE, 3))?;
    of_fork(out, 4, edge(0, TARGET, 3))
}

// Steps, and then vertices and edges, that are one too many or just as many as there may be; and too few vertices for the edges.
fn tallies(out: &mut impl Write) -> io::Result<()> {
    of_async(out, 4, tally(3, 2, 8192))?;
    of_async(out, 4, tally(3, 2, 8191))?;
    of_async(out, 4, tally(6, 2, 4))?;
    of_async(out, 4, tally(3, 4, 4))?;
    of_async(out, 4, tally(2, 2, 4))?;
    of_fork(out, 7, tally(4, 3, 8191))
}

// The async's second step is before the edge from 2 to 1, the sixth is the stop of 0. The fork's fourth and fifth lead edges into the vertex that
// does them.
fn numbers(out: &mut impl Write) -> io::Result<()> {
    of_async(out, 4, vertex(2, IN_COUNT, 5))?;
    of_async(out, 4, vertex(1, IN_COUNT, 0))?;
    of_async(out, 2, vertex(1, IN_COUNT, u32::MAX))?;
    of_async(out, 2, vertex(1, IN_COUNT, u32::MAX - 1))?;
    of_async(out, 6, vertex(2, IN_COUNT, 5))?;
    of_async(out, 6, vertex(1, IN_COUNT, 0))?;
    of_async(out, 6, vertex(1, IN_COUNT, u32::MAX))?;
    of_fork(out, 3, vertex(0, IN_COUNT, u32::MAX))?;
    of_fork(out, 3, vertex(0, IN_COUNT, u32::MAX - 1))?;
    of_fork(out, 5, vertex(0, IN_COUNT, 0))?;
    of_fork(out, 8, vertex(0, IN_COUNT, 0))?;
    of_fork(out, 8, vertex(0, IN_COUNT, 1))?;
    of_fork(out, 8, vertex(0, IN_COUNT, 5))
}

// The first edition's fork has nine commands, the second's seven, of which the last yields.
fn phases(out: &mut impl Write) -> io::Result<()> {
    moment(out, &FORK, Edition::First, 9, vertex(0, PHASE, 9))?;
    of_fork(out, 1, vertex(0, PHASE, 6))?;
    of_fork(out, 3, vertex(0, PHASE, 6))?;
    of_fork(out, 7, vertex(0, PHASE, 5))?;
    of_fork(out, 7, vertex(0, PHASE, 7))?;
    of_fork(out, 7, vertex(0, PHASE, 8))?;
    of_fork(out, 7, vertex(0, PHASE, u32::MAX))
}

// An async's edge onto the vertex that does it, and one from a vertex to itself.
fn scopes(out: &mut impl Write) -> io::Result<()> {
    of_async(out, 2, vertex(0, SCOPE, 0))?;
    moment(out, &ASYNC, Edition::Second, 2, vertex(0, SCOPE, 0))?;
    of_async(out, 2, vertex(0, SCOPE, 2))
}

// A fork's edge onto the vertex that does it, from that vertex itself, from one that it leads to, from the second branch, and from none.
fn firsts(out: &mut impl Write) -> io::Result<()> {
    of_fork(out, 3, vertex(0, MADE, 0))?;
    of_fork(out, 3, vertex(0, MADE, 1))?;
    of_fork(out, 3, vertex(0, MADE, 3))?;
    of_fork(out, 3, vertex(0, MADE, 4))
}

// A moment of the async in the first edition.
fn of_async(out: &mut impl Write, steps: u32, change: Change) -> io::Result<()> {
    moment(out, &ASYNC, Edition::First, steps, change)
}

// A moment of the fork in the second edition.
fn of_fork(out: &mut impl Write, steps: u32, change: Change) -> io::Result<()> {
    moment(out, &FORK, Edition::Second, steps, change)
}

fn tally(made: u32, held: u32, steps: u32) -> Change {
    Change::Tally(Tally { made, held, steps })
}

// So many steps of a program, and then this is altered.
fn moment(
    out: &mut impl Write,
    program: &[u8],
    edition: Edition,
    steps: u32,
    change: Change,
) -> io::Result<()> {
    let mut vertices = [0u32; 5 * VERTEX_WORDS];
    let mut edges = [0u32; 3 * EDGE_WORDS];
    write!(out, "after {steps} steps {change}: ")?;
    let mut lent = Lent {
        program,
        edition,
        vertices: &mut vertices,
        edges: &mut edges,
        tally: NOTHING,
    };
    loaded(out, &mut lent, steps)?;
    lent.alter(change);
    lent.write_calls(out, &[2, 1, 0, 3])
}

// Whether the word of each made vertex is the number of held edges into it, in tables of at most 300 rows.
pub(crate) fn are_true(lent: &Lent<'_>) -> bool {
    let mut into = [0u32; 300];
    count(lent.edges, lent.tally.held, &mut into);
    lent.vertices
        .chunks_exact(VERTEX_WORDS)
        .zip(&into)
        .take(lent.tally.made as usize)
        .all(|(row, count)| row.get(IN_COUNT) == Some(count))
}

fn count(edges: &[u32], held: u32, into: &mut [u32]) {
    for edge in edges.chunks_exact(EDGE_WORDS).take(held as usize) {
        if let Some(&target) = edge.get(TARGET) {
            if let Some(count) = into.get_mut(target as usize) {
                *count = count.saturating_add(1);
            }
        }
    }
}
