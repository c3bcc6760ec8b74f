// Runs the opening and the commands on many tables, and writes what each call answers and leaves: docs/ENGINE.md's bare example, full
// and freed tables, edges named twice, on full tables and beside a cycle too, vertices made with a future open, a vertex that yields, edges
// counted, tables shorter than a row and longer than 1,024 rows, a long path, stops that leave gaps, a bad word in each row, and some hundred
// tables of drawn words.
// tests/graph_cases.py computes the same lines from a model of its own; `stdout` holds them.
#![tactic(auto)]

mod counts;
mod draw;
mod script;
mod show;
mod stops;

use cases::draw::begin;
use graph::rows::{
    EDGE_TABLE, EDGE_WORDS, EXECUTING, FINISHED, NEW, RELEASED, STATUS, VERTEX_TABLE, VERTEX_WORDS,
};
use standard_streams::StandardOutput;
use std::io;
use std::io::Write;

// It ends quietly where it cannot write.
fn main() {
    let _ = all(&mut StandardOutput);
}

fn all(out: &mut impl Write) -> io::Result<()> {
    script::titled(out, "bare", (3, 2), (4, 1), &script::BARE)?;
    script::titled(out, "full", (4, 2), (3, 1), &script::FULL)?;
    script::titled(out, "twice", (4, 0), (2, 1), &script::TWICE)?;
    cycle(out)?;
    script::titled(out, "futures", (6, 2), (1, 0), &script::FUTURES)?;
    script::titled(out, "yields", (5, 2), (4, 1), &script::YIELDS)?;
    counts::all(out)?;
    short(out)?;
    long(out)?;
    path(out)?;
    writeln!(out, "gaps")?;
    stops::gaps(out)?;
    writeln!(out, "bad rows")?;
    stops::bad_rows(out)?;
    writeln!(out, "drawn")?;
    all_drawn(out, 0, 600, false)?;
    writeln!(out, "repeated")?;
    all_drawn(out, 600, 1000, true)
}

fn cycle(out: &mut impl Write) -> io::Result<()> {
    let mut vertices = [NEW; 6 * VERTEX_WORDS];
    let mut edges = [1u32, 2, 2, 1, 2, 3, 3, 3, 1, 4, 5, 1, 77, 77];
    vertices[STATUS] = EXECUTING;
    vertices[2 * VERTEX_WORDS + STATUS] = RELEASED;
    vertices[4 * VERTEX_WORDS + STATUS] = EXECUTING;
    vertices[5 * VERTEX_WORDS + STATUS] = FINISHED;
    writeln!(out, "cycle")?;
    script::run(out, &mut vertices, &mut edges, &script::CYCLE)
}

fn short(out: &mut impl Write) -> io::Result<()> {
    let mut vertices = [2u32; VERTEX_WORDS - 1];
    let mut edges = [2u32; EDGE_WORDS - 1];
    writeln!(out, "short")?;
    script::run(out, &mut vertices, &mut edges, &script::SHORT)
}

fn long(out: &mut impl Write) -> io::Result<()> {
    let mut vertices = [3u32; VERTEX_TABLE + 22];
    let mut edges = [1u32; EDGE_TABLE + 7];
    writeln!(out, "long")?;
    script::run(out, &mut vertices, &mut edges, &script::LONG)
}

// 1,024 vertices, the first executing, with the edges 1 → 2 → .. → 1,023.
fn path(out: &mut impl Write) -> io::Result<()> {
    let mut vertices = [1u32; VERTEX_TABLE];
    let mut edges = [0u32; EDGE_TABLE];
    vertices[STATUS] = EXECUTING;
    draw::path(&mut edges);
    writeln!(out, "path")?;
    script::run(out, &mut vertices, &mut edges, &script::PATH)
}

// The tables of the seeds from `first` up to `end`.
fn all_drawn(out: &mut impl Write, first: u32, end: u32, repeats: bool) -> io::Result<()> {
    for seed in first..end {
        drawn(out, seed, repeats)?;
    }
    Ok(())
}

// Small tables of drawn words and lengths, a drawn tally and a drawn command, which may be to repeat a held edge.
fn drawn(out: &mut impl Write, seed: u32, repeats: bool) -> io::Result<()> {
    let mut vertices = [0u32; 5 * VERTEX_WORDS + 4];
    let mut edges = [0u32; 5 * EDGE_WORDS];
    let d = draw::words(&mut vertices, begin(seed), 1);
    draw::mostly_executing(&mut vertices, seed);
    let d = draw::words(&mut edges, d, 0);
    let tally = draw::tally(d);
    let d = draw::in_counts(&mut vertices, &edges, tally.held, d.next().next().next());
    let n = draw::length(d, vertices.len(), 600);
    let d = d.next();
    let m = draw::length(d, edges.len(), 200);
    let command = draw::command(d, &edges, tally.held, repeats);
    script::command(out, &mut vertices[..n], &mut edges[..m], tally, command)?;
    Ok(())
}
