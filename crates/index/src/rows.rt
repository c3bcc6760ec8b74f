// The rows of an index: one more, whether an edge is held, the rows out of a vertex, and the table that they are handed back as.
ghost use Rattle.std.specs.Prelude.{◌≡◌, true, false, ◌++◌, ℕ, ◌+◌, ◌*◌, ◌<◌, ◌≤◌, max, eqb, length, drop, replicate};
ghost use Rattle.graph.specs.Tests.{how_many};
ghost use Rattle.graph.specs.Tables.{usable_limit, vertex_words, edge_words, source, target};
ghost use Rattle.graph.specs.Sound.{edges_made};
ghost use Rattle.graph.specs.Paths.{holds, leads_out_of};
ghost use Rattle.graph.specs.Commands.{appended, moved, lowered, kept};
ghost use Rattle.index.specs.Layout.{row_limit, nowhere, index_words, Indexed, SameRows};
ghost use Rattle.index.specs.Table.{live_rows, table_of};

use crate::Lowered;
use crate::layout::{BEFORE_IN, BEFORE_OUT, LAST_IN, LAST_OUT, NOWHERE};
use graph::rows::{EDGE_WORDS, SOURCE, TARGET, clear, less_into};

// One row more, behind the first `used`.
pub fn append(index: &mut [u32], used: usize, source: u32, target: u32)
    requires { Indexed index.old used × (used < row_limit) × (source < usable_limit) × (target < usable_limit) }
    ensures { Indexed index.new (used + 1) × SameRows (used + 1) index.new (appended index.old used source target) }
{
    let row = (used + 1) as u32;
    let last_in = index[LAST_IN + target as usize];
    let last_out = index[LAST_OUT + source as usize];
    index[EDGE_WORDS * used + SOURCE] = source;
    index[EDGE_WORDS * used + TARGET] = target;
    index[BEFORE_IN + used] = last_in;
    index[LAST_IN + target as usize] = row;
    index[BEFORE_OUT + used] = last_out;
    index[LAST_OUT + source as usize] = row;
}

// Takes the held edges in.
pub fn take_in(index: &mut [u32], edges: &[u32], held: usize)
    requires { (index.old ≡ replicate index_words 0) × (edge_words * held ≤ length edges.now) × (held ≤ usable_limit) × (edges_made edges.now usable_limit held ≡ true) }
    ensures { Indexed index.new held × SameRows held index.new edges.now }
{
    for i in 0..held {
        append(
            index,
            i,
            edges[EDGE_WORDS * i + SOURCE],
            edges[EDGE_WORDS * i + TARGET],
        );
    }
}

// Some row leads out of `vertex`.
pub fn leads_out(index: &[u32], used: usize, vertex: u32) -> bool
    requires { Indexed index.now used × (vertex < usable_limit) }
    ensures { result ≡ leads_out_of index.now used vertex }
{
    index[LAST_OUT + vertex as usize] != 0
}

// Some row leads from `source` to `target`.
pub fn is_held(index: &[u32], used: usize, source: u32, target: u32) -> bool
    requires { Indexed index.now used × (source < usable_limit) }
    ensures { result ≡ holds index.now used source target }
{
    let mut left = index[LAST_OUT + source as usize];
    while left != 0 {
        let i = (left - 1) as usize;
        if index[EDGE_WORDS * i + TARGET] == target {
            return true;
        }
        left = index[BEFORE_OUT + i];
    }
    false
}

// Gives each row out of `from` the source `to`, which has none, or `NOWHERE`, which drops them, and hands the list of these rows over.
pub fn move_out(index: &mut [u32], used: usize, from: u32, to: u32)
    requires { Indexed index.old used × (from < usable_limit) × (to ≤ nowhere) × (from ≡ to → ⊥) × (to < usable_limit → leads_out_of index.old used to ≡ false) }
    ensures { Indexed index.new used × SameRows used index.new (moved from to index.old used) }
{
    let last = index[LAST_OUT + from as usize];
    let mut left = last;
    while left != 0 {
        let i = (left - 1) as usize;
        index[EDGE_WORDS * i + SOURCE] = to;
        left = index[BEFORE_OUT + i];
    }
    index[LAST_OUT + to as usize] = last;
    index[LAST_OUT + from as usize] = 0;
}

// Takes each row out of `from` off its target's in-count, and says how many they are and between which numbers their targets lie.
pub fn lower_targets(vertices: &mut [u32], index: &[u32], used: usize, from: u32) -> Lowered
    requires indexed { Indexed index.now used × (from < usable_limit) }
    requires by_index { (i : ℕ) → i < used → source index.now i ≡ from → vertex_words * target index.now i + vertex_words ≤ length vertices.old }
    ensures { (vertices.new ≡ lowered from index.now vertices.old used) × (result.dropped ≡ how_many (λ i. eqb (source index.now i) from) used) × ((i : ℕ) → i < used → source index.now i ≡ from → (result.lowest ≤ target index.now i) × (target index.now i ≤ result.highest)) × ((m : ℕ) → 0 < m → ((i : ℕ) → i < used → source index.now i ≡ from → target index.now i < m) → result.highest < m) }
{
    let mut dropped = 0;
    let mut lowest = NOWHERE;
    let mut highest = 0;
    let mut left = index[LAST_OUT + from as usize];
    while left != 0 {
        let i = (left - 1) as usize;
        let target = index[EDGE_WORDS * i + TARGET];
        less_into(vertices, target as usize);
        dropped += 1;
        lowest = lowest.min(target);
        highest = highest.max(target);
        left = index[BEFORE_OUT + i];
    }
    Lowered {
        dropped,
        lowest,
        highest,
    }
}

// Writes the rows that were not dropped, in order, to the front of `edges`, and says how many they are.
fn gather_live(edges: &mut [u32], index: &[u32], used: usize) -> usize
    requires { Indexed index.now used × (edge_words * live_rows index.now used ≤ length edges.old) }
    ensures { (result ≡ live_rows index.now used) × (edges.new ≡ kept nowhere index.now used ++ drop (edge_words * live_rows index.now used) edges.old) }
{
    let mut live: usize = 0;
    for i in 0..used {
        let source = index[EDGE_WORDS * i + SOURCE];
        if source == NOWHERE {
            continue;
        }
        edges[EDGE_WORDS * live + SOURCE] = source;
        edges[EDGE_WORDS * live + TARGET] = index[EDGE_WORDS * i + TARGET];
        live += 1;
    }
    live
}

// Writes the edge table that the index stands for, where at most `peak` edges were held at a time.
pub fn hand_back(edges: &mut [u32], index: &[u32], used: usize, peak: usize)
    requires { Indexed index.now used × (edge_words * peak ≤ length edges.old) × (live_rows index.now used ≤ peak) }
    ensures { edges.new ≡ table_of index.now used peak edges.old }
{
    let live = gather_live(edges, index, used);
    clear(
        edges,
        EDGE_WORDS * live,
        EDGE_WORDS * peak - EDGE_WORDS * live,
    );
}
