// Stops of vertex 0 on tables of 41 rows, of which 40 are made and held: with gaps of every width, and with a bad word in each row.
ghost use Rattle.std.specs.Prelude.{◌<◌};

use crate::script;
use graph::rows::{EDGE_WORDS, EXECUTING, FINISHED, NEW, SOURCE, STATUS, TARGET, VERTEX_WORDS};
use graph::{Command, Tally};
use std::io;
use std::io::Write;

const USED: usize = 40;

const ROWS: usize = 41;

fn stop(out: &mut impl Write, vertices: &mut [u32], edges: &mut [u32]) -> io::Result<()> {
    let tally = Tally {
        made: USED as u32,
        held: USED as u32,
        steps: 0,
    };
    script::command(out, vertices, edges, tally, Command::Stop { caller: 0 })?;
    Ok(())
}

// Every other stretch of so many edges is out of vertex 0, the first one where `ahead` is 0, and the others are out of vertex 1.
fn stretches(out: &mut impl Write, stretch: usize, ahead: usize) -> io::Result<()>
    requires { (0 < stretch) × (ahead < 2) }
{
    let mut vertices = [NEW; ROWS * VERTEX_WORDS];
    let mut edges = [1u32; ROWS * EDGE_WORDS];
    vertices[STATUS] = EXECUTING;
    // By number, since both ends of a row are made from it.
    for row in 0..ROWS {
        edges[EDGE_WORDS * row + SOURCE] = ((row / stretch % 2 + ahead) % 2) as u32;
        edges[EDGE_WORDS * row + TARGET] = (row % USED) as u32;
    }
    stop(out, &mut vertices, &mut edges)
}

// From every other edge on to all 41.
pub(crate) fn gaps(out: &mut impl Write) -> io::Result<()> {
    for stretch in 1..=ROWS {
        stretches(out, stretch, 0)?;
        stretches(out, stretch, 1)?;
    }
    Ok(())
}

// The status of this row and this word of the edges are as told.
fn altered(out: &mut impl Write, row: usize, status: u32, word: usize, end: u32) -> io::Result<()>
    requires { (row < 41) × (word < 82) }
{
    let mut vertices = [NEW; ROWS * VERTEX_WORDS];
    let mut edges = [1u32; ROWS * EDGE_WORDS];
    vertices[STATUS] = EXECUTING;
    vertices[VERTEX_WORDS * row + STATUS] = status;
    edges[word] = end;
    stop(out, &mut vertices, &mut edges)
}

// In each row in turn the status is 0 or 5, and then the source and the target the first vertex that is not made. The last row is not in use.
pub(crate) fn bad_rows(out: &mut impl Write) -> io::Result<()> {
    for row in 0..ROWS {
        altered(out, row, (FINISHED + 1) * (row % 2) as u32, SOURCE, 1)?;
        altered(out, 0, EXECUTING, EDGE_WORDS * row + SOURCE, USED as u32)?;
        altered(out, 0, EXECUTING, EDGE_WORDS * row + TARGET, USED as u32)?;
    }
    Ok(())
}
