// Draws words and commands.
ghost use Rattle.std.specs.Prelude.{◌≤◌, ◌<◌};

use cases::draw::Draw;
use graph::rows::{
    EDGE_WORDS, EXECUTING, IN_COUNT, SOURCE, STATUS, TARGET, USABLE_LIMIT, VERTEX_WORDS,
};
use graph::{Command, Tally};

// Mostly one of the four numbers from `low` on.
fn word(d: Draw, low: u32) -> u32
    requires { low ≤ 1 }
{
    if d.below(100) == 0 {
        return d.next().below(7);
    }
    d.next().below(4) + low
}

pub(crate) fn words(table: &mut [u32], d: Draw, low: u32) -> Draw
    requires { low ≤ 1 }
{
    let mut now = d.next();
    for place in table {
        *place = word(now, low);
        now = now.next().next();
    }
    now
}

// Vertex 0 is mostly executing.
pub(crate) fn mostly_executing(vertices: &mut [u32], seed: u32) {
    if seed % 4 != 0 && STATUS < vertices.len() {
        vertices[STATUS] = EXECUTING;
    }
}

// Mostly all of them.
pub(crate) fn length(d: Draw, most: usize, limit: u32) -> usize
    ensures { result ≤ most }
{
    most.min(d.below(limit) as usize)
}

pub(crate) fn tally(d: Draw) -> Tally {
    let made = d.next().below(7);
    Tally {
        made: if made < 4 { 4 } else { made - 1 },
        held: d.next().next().below(6),
        steps: d.below(9000),
    }
}

// The number of edges into each of the first five vertices: the true one, 0, the largest, or the word as it was.
pub(crate) fn in_counts(vertices: &mut [u32], edges: &[u32], held: u32, d: Draw) -> Draw {
    let mut now = d;
    for row in 0..5 {
        in_count(vertices, row, into(edges, held, row as u32), now.below(8));
        now = now.next();
    }
    now
}

fn in_count(vertices: &mut [u32], row: usize, count: u32, kind: u32)
    requires { row < 5 }
{
    if let Some(word) = vertices.get_mut(VERTEX_WORDS * row + IN_COUNT) {
        match kind {
            0..=3 => *word = count,
            4 | 5 => *word = 0,
            6 => *word = u32::MAX,
            _ => {}
        }
    }
}

// How many of the held edges lead into the vertex.
fn into(edges: &[u32], held: u32, vertex: u32) -> u32 {
    edges
        .chunks_exact(EDGE_WORDS)
        .take(held as usize)
        .filter(|edge| edge.get(TARGET) == Some(&vertex))
        .count() as u32
}

// Any command, or one that repeats a held edge.
pub(crate) fn command(d: Draw, edges: &[u32], held: u32, repeats: bool) -> Command {
    if repeats {
        repeated(d, edges, held)
    } else {
        any_command(d)
    }
}

// Mostly vertex 0.
fn caller(d: Draw) -> u32 {
    let c = d.next().next().below(9);
    if c < 4 { 0 } else { c - 4 }
}

// The edge of a held row once more.
fn repeated(d: Draw, edges: &[u32], held: u32) -> Command {
    let row = d.next().next().next().below(held) as usize;
    if edges.len() < EDGE_WORDS * (row + 1) {
        return any_command(d);
    }
    Command::NewEdge {
        caller: caller(d),
        source: edges[EDGE_WORDS * row + SOURCE],
        target: edges[EDGE_WORDS * row + TARGET],
    }
}

// The vertices are mostly of the first four. Three in seven edges are drawn onto the caller.
fn any_command(d: Draw) -> Command {
    let kind = d.next().below(22);
    let caller = caller(d);
    let v = d.next().next().next().below(17);
    let target = d.next().next().next().next().below(4);
    let vertex = if v < 16 { v % 4 } else { 4 };
    match kind {
        0 => Command::NewTd {
            caller,
            place: vertex,
            scope: target,
        },
        1..=4 => Command::NewEdge {
            caller,
            source: vertex,
            target,
        },
        5..=7 => Command::NewEdge {
            caller,
            source: vertex,
            target: caller,
        },
        8 | 9 => Command::Release { caller, vertex },
        10..=12 => Command::Transfer { caller, vertex },
        13..=16 => Command::Start { vertex },
        17 | 18 => Command::Stop { caller },
        _ => Command::Yield { caller },
    }
}

// The edges 1 → 2, 2 → 3, .. in as many rows as there are.
pub(crate) fn path(edges: &mut [u32]) {
    for (i, end) in edges.iter_mut().enumerate() {
        *end = ((i / EDGE_WORDS + i % EDGE_WORDS + 1) % USABLE_LIMIT) as u32;
    }
}
