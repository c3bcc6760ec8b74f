// Edges that the host has written: a vertex's newEdge is refused, as it closes a cycle, until another vertex stops and its edges go. Then all is
// done.
use crate::hosts::{Ends, until_done};
use crate::lent::{Lent, NOTHING};
use crate::moments::{Desk, LIST, MARKS, both};
use crate::programs::{INNER_ASYNC, TWO_ASYNCS};
use crate::show::Which;
use cases::changes::edge;
use graph::rows::{EDGE_WORDS, SOURCE, TARGET, VERTEX_WORDS};
use program::Edition;
use std::io;
use std::io::Write;

pub(crate) fn all(out: &mut impl Write) -> io::Result<()> {
    below(out, Edition::First, 0)?;
    below(out, Edition::Second, 4)?;
    above(out, Edition::First, 0)?;
    above(out, Edition::Second, 1)
}

// Of the two asyncs vertex 0 is at the newEdge 3 → 1. Vertex 2, which can start, leads from 1 to 3.
fn below(out: &mut impl Write, edition: Edition, marked: u32) -> io::Result<()> {
    cycle(out, &TWO_ASYNCS, edition, 5, 2, marked)
}

// Of the inner async vertex 2 is at the newEdge 3 → 1. Vertex 0, whose job is handed out, leads from 1 to 3.
fn above(out: &mut impl Write, edition: Edition, marked: u32) -> io::Result<()> {
    cycle(out, &INNER_ASYNC, edition, 7, 0, marked)
}

// Behind the two edges that are held the host writes 1 → `between` and `between` → 3.
fn cycle(
    out: &mut impl Write,
    program: &[u8],
    edition: Edition,
    steps: u32,
    between: u32,
    marked: u32,
) -> io::Result<()> {
    let mut vertices = [0u32; 4 * VERTEX_WORDS];
    let mut edges = [0u32; 4 * EDGE_WORDS];
    let mut busy = [0u32; MARKS];
    let mut jobs = [9u32; LIST];
    let desk = Desk {
        marked,
        marks: MARKS,
        list: LIST,
        budget: 100,
    };
    write!(out, "{} after {steps}{desk}", Which(edition))?;
    let mut lent = Lent {
        program,
        edition,
        vertices: &mut vertices,
        edges: &mut edges,
        tally: NOTHING,
    };
    lent.begin(steps);
    lent.alter(edge(2, SOURCE, 1));
    lent.alter(edge(2, TARGET, between));
    lent.alter(edge(3, SOURCE, between));
    lent.alter(edge(3, TARGET, 3));
    lent.tally.held = 4;
    both(out, &mut lent, &mut busy, &mut jobs, desk)?;
    until_done(out, &mut lent, &mut busy, &mut jobs, Ends::All)
}
