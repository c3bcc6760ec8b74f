// Asks for chains on many graphs, and writes what each call answers and what the list then holds: chains of equal length, a short one with
// high numbers, a vertex on a loop, each refusal, a chain of 1,024 vertices, lists with just enough words and with one less, and some
// hundred drawn graphs, cyclic ones among them, in which every pair of vertices is asked for.
// tests/chain_cases.py computes the same lines from a model of its own; `stdout` holds them.
#![tactic(auto)]

mod drawn;
mod long;
mod show;

ghost use Rattle.std.specs.Prelude.{◌≤◌};

use graph::Tally;
use graph::rows::{NEW, STATUS, VERTEX_WORDS};
use standard_streams::StandardOutput;
use std::io;
use std::io::Write;

// Edges by source and target, the last of them from a vertex to itself.
const EDGES: [u32; 24] = [
    0, 1, 1, 4, 1, 3, 1, 2, 4, 5, 3, 5, 2, 6, 6, 5, 0, 7, 7, 2, 5, 8, 8, 8,
];

pub(crate) fn tally(made: u32, held: u32) -> Tally {
    Tally {
        made,
        held,
        steps: 9000,
    }
}

// It ends quietly where it cannot write.
fn main() {
    let _ = all(&mut StandardOutput);
}

fn all(out: &mut impl Write) -> io::Result<()> {
    small(out)?;
    refused(out)?;
    long::all(out)?;
    drawn::all(out)
}

// What is asked for in a small graph, with a list of eight words or fewer.
fn asked(
    out: &mut impl Write,
    made: u32,
    held: u32,
    source: u32,
    target: u32,
    words: usize,
) -> io::Result<()>
    requires { words ≤ 8 }
{
    let vertices = [NEW; 9 * VERTEX_WORDS];
    let mut list = [77u32; 8];
    show::call(
        out,
        &vertices,
        &EDGES,
        tally(made, held),
        source,
        target,
        &mut list[..words],
    )
}

// Two chains of equal length that differ late, against a longer one with lower numbers; two that differ at once; a vertex alone, on a loop too;
// no chain; lists just long enough and one short.
fn small(out: &mut impl Write) -> io::Result<()> {
    writeln!(out, "small")?;
    asked(out, 9, 12, 5, 0, 8)?;
    asked(out, 9, 12, 5, 1, 8)?;
    asked(out, 9, 12, 2, 0, 8)?;
    asked(out, 9, 12, 6, 0, 8)?;
    asked(out, 9, 12, 8, 0, 8)?;
    asked(out, 9, 12, 8, 8, 8)?;
    asked(out, 9, 12, 3, 3, 8)?;
    asked(out, 9, 0, 3, 3, 8)?;
    asked(out, 9, 12, 0, 5, 8)?;
    asked(out, 9, 12, 5, 0, 4)?;
    asked(out, 9, 12, 5, 0, 3)?;
    asked(out, 9, 12, 4, 4, 1)?;
    asked(out, 9, 12, 4, 4, 0)
}

// 12, 20, 41 and 42, each before the later ones.
fn refused(out: &mut impl Write) -> io::Result<()> {
    writeln!(out, "refused")?;
    asked(out, 10, 12, 10, 10, 0)?;
    asked(out, 9, 13, 9, 9, 0)?;
    asked(out, 8, 12, 8, 8, 0)?;
    asked(out, 9, 12, 9, 0, 0)?;
    asked(out, 9, 12, 0, 9, 0)?;
    asked(out, 9, 12, 4294967295, 4294967295, 0)?;
    asked(out, 9, 12, 0, 5, 0)?;
    asked(out, 9, 11, 7, 8, 0)?;
    unknown_status(out)
}

fn unknown_status(out: &mut impl Write) -> io::Result<()> {
    let mut vertices = [NEW; 2 * VERTEX_WORDS];
    let mut list = [77u32; 2];
    vertices[VERTEX_WORDS + STATUS] = 5;
    show::call(out, &vertices, &EDGES, tally(2, 1), 1, 0, &mut list)?;
    show::call(out, &vertices, &EDGES, tally(1, 0), 0, 0, &mut list)
}
