// What a host may have altered between two calls.
ghost use Rattle.std.specs.Prelude.{◌≡◌, ◌<◌, Some, slice_set};
ghost use Rattle.graph.specs.Tables.{vertex_words, edge_words};
ghost use Rattle.cases.specs.Changes.{vertices_after, edges_after, tally_after, change_text};

use graph::Tally;
use graph::rows::{EDGE_WORDS, VERTEX_WORDS};
use std::fmt;

// A word of a vertex row or of an edge row, or the tally.
#[derive(Clone, Copy)]
pub enum Change {
    Vertex { row: u32, word: u32, to: u32 },
    Edge { row: u32, word: u32, to: u32 },
    Tally(Tally),
}

// A word of a vertex row.
pub fn vertex(row: u32, word: usize, to: u32) -> Change
    requires { word < vertex_words }
    ensures { result ≡ Change.Vertex row word to }
{
    Change::Vertex {
        row,
        word: word as u32,
        to,
    }
}

// The source or the target of an edge row.
pub fn edge(row: u32, end: usize, to: u32) -> Change
    requires { end < edge_words }
    ensures { result ≡ Change.Edge row end to }
{
    Change::Edge {
        row,
        word: end as u32,
        to,
    }
}

impl Change {
    // Makes it, and hands the tally on. A word that is not there stays away.
    pub fn make(self, vertices: &mut [u32], edges: &mut [u32], tally: Tally) -> Tally
        ensures vertices { vertices.new ≡ vertices_after self vertices.old }
        ensures edges { edges.new ≡ edges_after self edges.old }
        ensures tally { result ≡ tally_after self tally }
    {
        match self {
            Change::Vertex { row, word, to } => {
                set(
                    vertices,
                    VERTEX_WORDS * (row as usize) + (word as usize),
                    to,
                );
                tally
            }
            Change::Edge { row, word, to } => {
                set(edges, EDGE_WORDS * (row as usize) + (word as usize), to);
                tally
            }
            Change::Tally(altered) => altered,
        }
    }
}

fn set(table: &mut [u32], at: usize, word: u32)
    ensures { table.new ≡ slice_set table.old at word }
{
    if at < table.len() {
        table[at] = word;
    }
}

impl fmt::Display for Change {
    ghost output = { λ c. Some (change_text c) };

    fn fmt<W: fmt::Write>(&self, f: &mut fmt::Formatter<W>) -> fmt::Result {
        match *self {
            Change::Vertex { row, word, to } => write!(f, "vertex {row} {word} {to}"),
            Change::Edge { row, word, to } => write!(f, "edge {row} {word} {to}"),
            Change::Tally(Tally { made, held, steps }) => write!(f, "tally {made} {held} {steps}"),
        }
    }
}
