// Lists of calls, and what runs them.
ghost use Rattle.std.specs.Prelude.{◌≤◌, ◌<◌};

use crate::show;
use graph::commands::{command_by_value, open_by_value};
use graph::rows::{EDGE_WORDS, FUTURE, VERTEX_WORDS};
use graph::{Command, Tally};
use std::io;
use std::io::Write;

// The opening, a command, or what the host alters before the next of them.
#[derive(Clone, Copy)]
pub(crate) enum Call {
    Open,
    // The vertex to be started.
    Start(u32),
    // The caller, the place and the scope.
    New(u32, u32, u32),
    // The caller, the source and the target.
    Edge(u32, u32, u32),
    // The caller and the vertex, here and at a transfer.
    Release(u32, u32),
    Transfer(u32, u32),
    // The caller, here and at a yield.
    Stop(u32),
    Yield(u32),
    // The tally's words: how many vertices are made, how many edges are held, and the steps.
    Tally(u32, u32, u32),
    // A row, the word of it, and the number that is stored there; in an edge row likewise.
    VertexWord(usize, usize, u32),
    EdgeWord(usize, usize, u32),
}

// The bare example (docs/ENGINE.md, "Examples"): start 0, new 1, new 2, edge 1 2; then edge 2 1 and edge 1 1 give 35; edge 1 2 is
// taken; edge 0 1 is taken; transfer to 1 gives 38, to 2 gives 35.
pub(crate) const BARE: [Call; 12] = [
    Call::Tally(9, 9, 9),
    Call::Open,
    Call::Start(0),
    Call::New(0, 5, 0),
    Call::New(0, 6, 1),
    Call::Edge(0, 1, 2),
    Call::Edge(0, 2, 1),
    Call::Edge(0, 1, 1),
    Call::Edge(0, 1, 2),
    Call::Edge(0, 0, 1),
    Call::Transfer(0, 1),
    Call::Transfer(0, 2),
];

// Four vertex rows and three edge rows: "no edge row" with none free, and no longer once a stop has freed some.
pub(crate) const FULL: [Call; 23] = [
    Call::Open,
    Call::Start(0),
    Call::New(0, 1, 0),
    Call::New(0, 2, 0),
    Call::New(0, 3, 0),
    Call::New(0, 4, 0),
    Call::Edge(0, 1, 3),
    Call::Edge(0, 2, 3),
    Call::Edge(0, 1, 2),
    Call::Edge(0, 0, 1),
    Call::Release(0, 1),
    Call::Release(0, 1),
    Call::Start(1),
    Call::Start(1),
    Call::Start(2),
    Call::Stop(1),
    Call::Stop(1),
    Call::Start(1),
    Call::Edge(0, 1, 3),
    Call::Edge(0, 0, 3),
    Call::Edge(0, 0, 2),
    Call::Edge(0, 3, 2),
    Call::Stop(0),
];

// Four vertices and two edge rows: an edge held already is taken while a row is free, once none is, and after a stop.
pub(crate) const TWICE: [Call; 22] = [
    Call::Open,
    Call::Start(0),
    Call::New(0, 1, 0),
    Call::New(0, 2, 0),
    Call::New(0, 3, 0),
    Call::Edge(0, 1, 2),
    Call::Edge(0, 1, 2),
    Call::Edge(0, 2, 3),
    Call::Edge(0, 1, 3),
    Call::Edge(0, 2, 3),
    Call::Edge(0, 1, 2),
    Call::Edge(0, 1, 3),
    Call::Edge(0, 3, 1),
    Call::Release(0, 1),
    Call::Start(1),
    Call::Edge(1, 1, 2),
    Call::Stop(1),
    Call::Edge(0, 2, 3),
    Call::Edge(0, 1, 2),
    Call::Edge(0, 0, 2),
    Call::Edge(0, 0, 2),
    Call::Edge(0, 0, 3),
];

// Vertices 0 and 4 execute, 2 is released, 5 is finished; of seven rows six hold 1 → 2, 2 → 1, 2 → 3, 3 → 3, 1 → 4, 5 → 1. Held edges are
// taken, but for refusals 12, 30 and 33; others that would close a cycle are not, and one fills the last row.
pub(crate) const CYCLE: [Call; 22] = [
    Call::Tally(6, 6, 0),
    Call::Edge(0, 1, 2),
    Call::Edge(0, 2, 1),
    Call::Edge(0, 3, 3),
    Call::Edge(0, 5, 1),
    Call::Edge(0, 1, 1),
    Call::Edge(0, 2, 2),
    Call::Edge(0, 3, 1),
    Call::Edge(0, 3, 2),
    Call::Edge(0, 1, 4),
    Call::Edge(1, 1, 2),
    Call::Edge(5, 3, 3),
    Call::Edge(4, 1, 2),
    Call::Edge(0, 1, 3),
    Call::Edge(0, 1, 3),
    Call::Edge(0, 3, 3),
    Call::Edge(0, 0, 3),
    Call::Edge(0, 3, 1),
    Call::Tally(6, 7, 9000),
    Call::Edge(0, 2, 1),
    Call::Tally(5, 7, 0),
    Call::Edge(0, 1, 2),
];

// Six vertex rows: a vertex gets the latest open future of its caller, and not that of its scope, of the vertex whose number is its place,
// or of the one made before it. A refused call stores none, and opening clears all.
pub(crate) const FUTURES: [Call; 22] = [
    Call::Open,
    Call::Start(0),
    Call::New(0, 8, 0),
    Call::VertexWord(0, FUTURE, 5),
    Call::New(0, 9, 1),
    Call::VertexWord(1, FUTURE, 6),
    Call::VertexWord(2, FUTURE, 7),
    Call::Release(0, 1),
    Call::Start(1),
    Call::New(1, 2, 0),
    Call::VertexWord(3, FUTURE, u32::MAX),
    Call::New(0, 1, 3),
    Call::New(2, 1, 0),
    Call::New(5, 1, 0),
    Call::VertexWord(0, FUTURE, 0),
    Call::New(0, 4, 1),
    Call::New(1, 0, 0),
    Call::Stop(0),
    Call::Stop(1),
    Call::Open,
    Call::Start(0),
    Call::New(0, 1, 1),
];

// The article's fork (note 10): a vertex makes two with edges onto itself, releases them, yields, and starts again once nothing leads into it.
// One of the two gets edges onto itself likewise, transfers its edge out and stops: what leads into it stays held until its source stops. An edge
// from the caller to itself is 35, one onto another vertex that executes 33.
pub(crate) const YIELDS: [Call; 53] = [
    Call::Open,
    Call::Yield(0),
    Call::Start(0),
    Call::Yield(1),
    Call::New(0, 5, 0),
    Call::New(0, 6, 0),
    Call::Yield(1),
    Call::Edge(0, 0, 0),
    Call::Edge(0, 1, 0),
    Call::Edge(0, 2, 0),
    Call::Edge(0, 1, 0),
    Call::Edge(0, 0, 1),
    Call::Release(0, 1),
    Call::Release(0, 2),
    Call::Yield(0),
    Call::Yield(0),
    Call::Start(0),
    Call::Start(1),
    Call::Start(2),
    Call::Edge(1, 1, 2),
    Call::Edge(1, 2, 0),
    Call::Edge(1, 0, 1),
    Call::Edge(1, 2, 1),
    Call::New(1, 7, 0),
    Call::New(1, 8, 0),
    Call::Edge(1, 3, 1),
    Call::Edge(1, 3, 1),
    Call::Edge(2, 3, 2),
    Call::Edge(2, 0, 1),
    Call::Transfer(1, 3),
    Call::Transfer(1, 4),
    Call::Release(1, 3),
    Call::Release(1, 4),
    Call::Stop(1),
    Call::Start(1),
    Call::Edge(2, 3, 1),
    Call::Yield(1),
    Call::Stop(2),
    Call::Start(0),
    Call::Start(4),
    Call::Edge(4, 1, 4),
    Call::Edge(4, 3, 4),
    Call::Yield(4),
    Call::Start(4),
    Call::Stop(4),
    Call::Start(3),
    Call::Stop(3),
    Call::Start(4),
    Call::Stop(4),
    Call::Start(0),
    Call::Stop(0),
    Call::Edge(0, 1, 0),
    Call::Yield(0),
];

// Tables that are shorter than a row.
pub(crate) const SHORT: [Call; 4] = [
    Call::Open,
    Call::Start(0),
    Call::Tally(1, 0, 0),
    Call::Start(0),
];

// Tables of more than 1,024 rows: the rows past them are not used and not touched.
pub(crate) const LONG: [Call; 10] = [
    Call::Tally(1023, 1024, 7),
    Call::New(0, 8, 9),
    Call::Edge(0, 0, 2),
    Call::New(0, 8, 9),
    Call::Stop(0),
    Call::Tally(1025, 0, 0),
    Call::Start(0),
    Call::Tally(3, 1025, 0),
    Call::Start(0),
    Call::Open,
];

// The ends of a path of 1,022 edges.
pub(crate) const PATH: [Call; 7] = [
    Call::Tally(1024, 1022, 0),
    Call::Edge(0, 1023, 1),
    Call::Edge(0, 1, 1023),
    Call::Edge(0, 0, 1),
    Call::Edge(0, 1, 1023),
    Call::Transfer(0, 1023),
    Call::Transfer(0, 1024),
];

pub(crate) fn command(
    out: &mut impl Write,
    vertices: &mut [u32],
    edges: &mut [u32],
    tally: Tally,
    command: Command,
) -> io::Result<Tally> {
    let done = command_by_value(vertices, edges, tally, command);
    show::done(out, done, vertices, edges)?;
    Ok(done.tally)
}

fn open(
    out: &mut impl Write,
    vertices: &mut [u32],
    edges: &mut [u32],
    tally: Tally,
) -> io::Result<Tally> {
    let done = open_by_value(vertices, edges, tally);
    show::opened(out, done, vertices, edges)?;
    Ok(done.tally)
}

// Stores a number in a word of a row, where each row has `width` words.
fn alter(table: &mut [u32], width: usize, row: usize, word: usize, number: u32)
    requires { 0 < width }
{
    if let Some(words) = table.chunks_exact_mut(width).nth(row)
        && let Some(place) = words.get_mut(word)
    {
        *place = number;
    }
}

fn one(
    out: &mut impl Write,
    vertices: &mut [u32],
    edges: &mut [u32],
    tally: Tally,
    call: Call,
) -> io::Result<Tally> {
    let single = match call {
        Call::Open => return open(out, vertices, edges, tally),
        Call::Tally(made, held, steps) => return Ok(Tally { made, held, steps }),
        Call::VertexWord(row, word, number) => {
            alter(vertices, VERTEX_WORDS, row, word, number);
            return Ok(tally);
        }
        Call::EdgeWord(row, word, number) => {
            alter(edges, EDGE_WORDS, row, word, number);
            return Ok(tally);
        }
        Call::Start(vertex) => Command::Start { vertex },
        Call::New(caller, place, scope) => Command::NewTd {
            caller,
            place,
            scope,
        },
        Call::Edge(caller, source, target) => Command::NewEdge {
            caller,
            source,
            target,
        },
        Call::Release(caller, vertex) => Command::Release { caller, vertex },
        Call::Transfer(caller, vertex) => Command::Transfer { caller, vertex },
        Call::Stop(caller) => Command::Stop { caller },
        Call::Yield(caller) => Command::Yield { caller },
    };
    command(out, vertices, edges, tally, single)
}

// Makes the calls one after the other, from an empty tally on.
pub(crate) fn run(
    out: &mut impl Write,
    vertices: &mut [u32],
    edges: &mut [u32],
    calls: &[Call],
) -> io::Result<()> {
    let mut now = Tally {
        made: 0,
        held: 0,
        steps: 0,
    };
    for &call in calls {
        now = one(out, vertices, edges, now, call)?;
    }
    Ok(())
}

// Makes them on tables of 77s, behind a title. Of each table are told how many rows it has, and how many words behind the last of them.
pub(crate) fn titled(
    out: &mut impl Write,
    title: &str,
    vertex_table: (usize, usize),
    edge_table: (usize, usize),
    calls: &[Call],
) -> io::Result<()>
    requires { (vertex_table.0 ≤ 6) × (vertex_table.1 ≤ 2) × (edge_table.0 ≤ 4) × (edge_table.1 ≤ 1) }
{
    let (vertex_rows, vertex_rest) = vertex_table;
    let (edge_rows, edge_rest) = edge_table;
    let mut vertices = [77u32; 6 * VERTEX_WORDS + 2];
    let mut edges = [77u32; 4 * EDGE_WORDS + 1];
    let vertices = &mut vertices[..VERTEX_WORDS * vertex_rows + vertex_rest];
    let edges = &mut edges[..EDGE_WORDS * edge_rows + edge_rest];
    writeln!(out, "{title}")?;
    run(out, vertices, edges, calls)
}
