// A chain of 1,024 vertices, with its edges in the order of the chain and in the other, and lists with room for it, or for all of it but one
// vertex.
ghost use Rattle.std.specs.Prelude.{◌≤◌, ◌<◌};

use crate::{show, tally};
use graph::rows::{EDGE_TABLE, EDGE_WORDS, NEW, USABLE_LIMIT, VERTEX_TABLE};
use std::io;
use std::io::Write;

pub(crate) fn all(out: &mut impl Write) -> io::Result<()> {
    writeln!(out, "long")?;
    chain(out, false)?;
    chain(out, true)
}

fn chain(out: &mut impl Write, reversed: bool) -> io::Result<()> {
    let mut edges = [0u32; EDGE_TABLE];
    lay(&mut edges, reversed);
    asked(out, &edges, 1023, 0, 1023)?;
    asked(out, &edges, 1023, 0, 1024)?;
    asked(out, &edges, 1022, 5, 1026)?;
    asked(out, &edges, 0, 1023, 1026)
}

fn asked(
    out: &mut impl Write,
    edges: &[u32],
    source: u32,
    target: u32,
    words: usize,
) -> io::Result<()>
    requires { words ≤ 1026 }
{
    let vertices = [NEW; VERTEX_TABLE];
    let mut list = [77u32; USABLE_LIMIT + 2];
    show::sum_of_call(
        out,
        &vertices,
        edges,
        tally(1024, 1023),
        source,
        target,
        &mut list[..words],
    )
}

// The edges 0 → 1, 1 → 2, .. in as many rows as there are, or from the last row on.
fn lay(edges: &mut [u32], reversed: bool) {
    for (i, end) in edges.iter_mut().enumerate() {
        let source = source_of(i / EDGE_WORDS % USABLE_LIMIT, reversed) % USABLE_LIMIT;
        *end = ((source + i % EDGE_WORDS) % USABLE_LIMIT) as u32;
    }
}

fn source_of(row: usize, reversed: bool) -> usize
    requires { row < 1024 }
{
    if reversed {
        2 * USABLE_LIMIT - 2 - row
    } else {
        row
    }
}
