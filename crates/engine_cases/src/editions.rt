// Editions: orders of a fork in the second, and calls of one edition on tables that were loaded by the other.
use crate::examples::{FORK, loaded, place};
use crate::lent::{Lent, NOTHING};
use graph::rows::{EDGE_TABLE, EDGE_WORDS, VERTEX_TABLE, VERTEX_WORDS};
use program::{Edition, format};
use std::io;
use std::io::Write;

// The yielded vertex is named until both branches have stopped.
const YIELDED_FIRST: [u32; 23] = [
    0, 0, 0, 0, 0, 0, 0, 0, 0, 2, 2, 0, 2, 0, 3, 3, 0, 3, 0, 0, 0, 1, 1,
];

// Both branches stop before the yield.
const YIELDED_LAST: [u32; 19] = [0, 0, 0, 0, 0, 0, 2, 2, 2, 0, 3, 3, 3, 0, 0, 0, 0, 1, 1];

// One does.
const YIELDED_BETWEEN: [u32; 20] = [0, 0, 0, 0, 0, 0, 0, 3, 3, 3, 0, 0, 2, 2, 2, 0, 0, 0, 1, 1];

pub(crate) fn all(out: &mut impl Write) -> io::Result<()> {
    in_order(out, &YIELDED_FIRST)?;
    in_order(out, &YIELDED_LAST)?;
    in_order(out, &YIELDED_BETWEEN)?;
    others(out)?;
    too_many_forks(out)
}

pub(crate) fn other(edition: Edition) -> Edition {
    match edition {
        Edition::First => Edition::Second,
        Edition::Second => Edition::First,
    }
}

// Steps of these vertices of the fork, on as many rows as it needs.
fn in_order(out: &mut impl Write, stepped: &[u32]) -> io::Result<()> {
    let mut vertices = [0u32; 4 * VERTEX_WORDS];
    let mut edges = [0u32; 3 * EDGE_WORDS];
    write!(out, "in order: ")?;
    let mut lent = Lent {
        program: &FORK,
        edition: Edition::Second,
        vertices: &mut vertices,
        edges: &mut edges,
        tally: NOTHING,
    };
    loaded(out, &mut lent, 0)?;
    lent.write_steps(out, stepped)
}

// At each phase of the fork.
fn others(out: &mut impl Write) -> io::Result<()> {
    for phase in 0..11 {
        by_the_other(out, Edition::First, phase)?;
        by_the_other(out, Edition::Second, phase)?;
    }
    Ok(())
}

// A run of so many steps, and then calls of the other edition.
fn by_the_other(out: &mut impl Write, edition: Edition, budget: u32) -> io::Result<()> {
    let mut vertices = [0u32; 5 * VERTEX_WORDS];
    let mut edges = [0u32; 3 * EDGE_WORDS];
    write!(out, "after {budget} steps the other: ")?;
    let mut lent = Lent {
        program: &FORK,
        edition,
        vertices: &mut vertices,
        edges: &mut edges,
        tally: NOTHING,
    };
    loaded(out, &mut lent, budget)?;
    lent.edition = other(edition);
    lent.write_calls(out, &[2, 1, 0, 3])
}

// 341 forks have 1,025 vertices in the first edition: a released vertex starts there, and an executing one is at no item.
fn too_many_forks(out: &mut impl Write) -> io::Result<()> {
    let mut program = [0u8; 1024];
    let mut vertices = [0u32; VERTEX_TABLE];
    let mut edges = [0u32; EDGE_TABLE];
    place(&mut program, format::FORK, 341, 3);
    write!(out, "too many forks for the other: ")?;
    let mut lent = Lent {
        program: &program,
        edition: Edition::Second,
        vertices: &mut vertices,
        edges: &mut edges,
        tally: NOTHING,
    };
    loaded(out, &mut lent, 0)?;
    lent.edition = Edition::First;
    lent.write_calls(out, &[0, 0])
}
