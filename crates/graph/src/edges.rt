// Looking through the held edges, and changing them.
ghost use Rattle.std.specs.Prelude.{◌≡◌, ◌*◌, ◌≤◌, ◌<◌, length, eqb};
ghost use Rattle.graph.specs.Tests.{any};
ghost use Rattle.graph.specs.Tables.{edge_words, edge_word};
ghost use Rattle.graph.specs.Paths.{holds};
ghost use Rattle.graph.specs.Commands.{moved, lowered, kept_rows, without_edges_of};
ghost use Rattle.graph.specs.Internal.Gather.{FirstOutOf, Gathered, TargetsFit};

use crate::rows::{EDGE_WORDS, SOURCE, TARGET, clear, first_rows, less_into};

pub(crate) fn is_held(edges: &[u32], held: usize, source: u32, target: u32) -> bool
    requires { edge_words * held ≤ length edges.now }
    ensures { result ≡ holds edges.now held source target }
{
    for row in first_rows::<EDGE_WORDS>(edges, held) {
        if row[SOURCE] == source && row[TARGET] == target {
            return true;
        }
    }
    false
}

// Some held edge has `vertex` for the end that is its row's word `end`. (`any` takes a tenth longer here, on 1,024 rows.)
pub(crate) fn leads(edges: &[u32], held: usize, end: usize, vertex: u32) -> bool
    requires { (edge_words * held ≤ length edges.now) × (end < edge_words) }
    ensures { result ≡ any (λ i. eqb (edge_word edges.now i end) vertex) held }
{
    for row in first_rows::<EDGE_WORDS>(edges, held) {
        if row[end] == vertex {
            return true;
        }
    }
    false
}

// Gives each edge out of `from` the source `to`, in its row. Here and in `gather_others` rows are counted: of rows that are lent to be written, as
// arrays or chunks, the library says nothing of what the table is afterwards that these contracts could stand on.
pub(crate) fn move_sources(edges: &mut [u32], held: usize, from: u32, to: u32)
    requires { edge_words * held ≤ length edges.old }
    ensures { edges.new ≡ moved from to edges.old held }
{
    for i in 0..held {
        if edges[EDGE_WORDS * i + SOURCE] != from {
            continue;
        }
        edges[EDGE_WORDS * i + SOURCE] = to;
    }
}

// The first edge out of `vertex`, or `held` where none is, from which on its callers look at the rows behind.
fn first_out_of(edges: &[u32], held: usize, vertex: u32) -> usize
    requires { edge_words * held ≤ length edges.now }
    ensures { FirstOutOf vertex edges.now held result }
{
    first_rows::<EDGE_WORDS>(edges, held)
        .iter()
        .position(|row| row[SOURCE] == vertex)
        .unwrap_or(held)
}

// Brings the edges that are not out of `vertex` together at the front, in order, and says how many they are; each other one is taken off its
// target's in-count. Those ahead of the first such stay where they are.
fn gather_others(vertices: &mut [u32], edges: &mut [u32], held: usize, vertex: u32) -> usize
    requires { (edge_words * held ≤ length edges.old) × TargetsFit vertices.old edges.old held }
    ensures { (result ≡ kept_rows vertex edges.old held) × Gathered vertex edges.old edges.new held × (vertices.new ≡ lowered vertex edges.old vertices.old held) }
{
    let first = first_out_of(edges, held, vertex);
    let mut kept: usize = first;
    for i in first..held {
        let source = edges[EDGE_WORDS * i + SOURCE];
        let target = edges[EDGE_WORDS * i + TARGET];
        if source == vertex {
            less_into(vertices, target as usize);
        } else {
            edges[EDGE_WORDS * kept + SOURCE] = source;
            edges[EDGE_WORDS * kept + TARGET] = target;
            kept += 1;
        }
    }
    kept
}

// Drops the edges out of `vertex`: closes the gaps, keeps the order, clears the freed rows, takes each off its target's in-count, and says
// how many edges are left.
pub(crate) fn drop_edges(vertices: &mut [u32], edges: &mut [u32], held: usize, vertex: u32) -> usize
    requires { (edge_words * held ≤ length edges.old) × TargetsFit vertices.old edges.old held }
    ensures { (result ≡ kept_rows vertex edges.old held) × (edges.new ≡ without_edges_of vertex edges.old held) × (vertices.new ≡ lowered vertex edges.old vertices.old held) }
{
    let kept = gather_others(vertices, edges, held, vertex);
    clear(
        edges,
        EDGE_WORDS * kept,
        EDGE_WORDS * held - EDGE_WORDS * kept,
    );
    kept
}
