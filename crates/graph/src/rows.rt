// The rows of the lent tables: how wide they are, which word is which, and how many rows may be used.
ghost use Rattle.std.specs.Prelude.{◌≡◌, ◌+◌, ◌*◌, ◌/◌, ◌≤◌, ◌<◌, length, min};
ghost use Rattle.graph.specs.Tables.{usable_limit, vertex_words, edge_words, vertex_rows, edge_rows, set_status, clear};
ghost use Rattle.graph.specs.Internal.FirstRows.{FirstRows};
ghost use Rattle.graph.specs.Commands.{new_row, appended, one_more, more_into, less_into};

// Only full rows among the first 1,024 of each table are used.
pub const USABLE_LIMIT: usize = 1024;

// A vertex row: status, place, scope, phase, the three vertices that the item at hand made, the latest open future, and the number of
// edges into the vertex.
pub const VERTEX_WORDS: usize = 9;

pub const STATUS: usize = 0;

pub const PLACE: usize = 1;

pub const SCOPE: usize = 2;

pub const PHASE: usize = 3;

// The first of the three; the others follow it.
pub const MADE: usize = 4;

// 0 is none.
pub const FUTURE: usize = 7;

pub const IN_COUNT: usize = 8;

// An edge row.
pub const EDGE_WORDS: usize = 2;

pub const SOURCE: usize = 0;

pub const TARGET: usize = 1;

// The words of a table with all the rows that may be used.
pub const VERTEX_TABLE: usize = VERTEX_WORDS * USABLE_LIMIT;

pub const EDGE_TABLE: usize = EDGE_WORDS * USABLE_LIMIT;

// The statuses are words of a table that hosts lend, where any other number may stand: no enum.
pub const NEW: u32 = 1;

pub const RELEASED: u32 = 2;

pub const EXECUTING: u32 = 3;

pub const FINISHED: u32 = 4;

// The rows of so many words that may be used.
fn usable_rows<const WORDS: usize>(table: &[u32]) -> usize
    requires { 0 < WORDS }
    ensures { result ≡ min usable_limit (length table.now / WORDS) }
{
    (table.len() / WORDS).min(USABLE_LIMIT)
}

pub fn vertex_rows(vertices: &[u32]) -> usize
    ensures { result ≡ vertex_rows vertices.now }
{
    usable_rows::<VERTEX_WORDS>(vertices)
}

pub fn edge_rows(edges: &[u32]) -> usize
    ensures { result ≡ edge_rows edges.now }
{
    usable_rows::<EDGE_WORDS>(edges)
}

// The first `count` rows of so many words.
pub fn first_rows<const WORDS: usize>(table: &[u32], count: usize) -> &[[u32; WORDS]]
    requires { (0 < WORDS) × (WORDS * count ≤ length table.now) }
    ensures { FirstRows WORDS table.now count result.now }
{
    table[..WORDS * count].as_chunks().0
}

// Clears `count` words from `from` on.
pub fn clear(table: &mut [u32], from: usize, count: usize)
    requires { from + count ≤ length table.old }
    ensures { table.new ≡ clear table.old from count }
{
    table[from..from + count].fill(0);
}

pub fn set_status(vertices: &mut [u32], vertex: usize, status: u32)
    requires { vertex_words * vertex + vertex_words ≤ length vertices.old }
    ensures { vertices.new ≡ set_status vertices.old vertex status }
{
    vertices[VERTEX_WORDS * vertex + STATUS] = status;
}

// Makes row `vertex` that of a new vertex.
#[tactic(auto, unfolding(crate::specs::Commands::new_row))]
pub fn make_row(vertices: &mut [u32], vertex: usize, place: u32, scope: u32, future: u32)
    requires { vertex_words * vertex + vertex_words ≤ length vertices.old }
    ensures { vertices.new ≡ new_row vertices.old vertex place scope future }
{
    clear(vertices, VERTEX_WORDS * vertex, VERTEX_WORDS);
    vertices[VERTEX_WORDS * vertex + STATUS] = NEW;
    vertices[VERTEX_WORDS * vertex + PLACE] = place;
    vertices[VERTEX_WORDS * vertex + SCOPE] = scope;
    vertices[VERTEX_WORDS * vertex + FUTURE] = future;
}

#[tactic(auto, unfolding(crate::specs::Commands::one_more))]
fn one_more(edges_in: u32) -> u32
    ensures { result ≡ one_more edges_in }
{
    edges_in.saturating_add(1)
}

// One edge more into `vertex`; the word stops at its largest number.
#[tactic(auto, unfolding(crate::specs::Commands::more_into))]
pub fn more_into(vertices: &mut [u32], vertex: usize)
    requires { vertex_words * vertex + vertex_words ≤ length vertices.old }
    ensures { vertices.new ≡ more_into vertices.old vertex }
{
    let edges_in = &mut vertices[VERTEX_WORDS * vertex + IN_COUNT];
    *edges_in = one_more(*edges_in);
}

// One edge less; the word stops at 0.
#[tactic(auto, unfolding(crate::specs::Commands::less_into))]
pub fn less_into(vertices: &mut [u32], vertex: usize)
    requires { vertex_words * vertex + vertex_words ≤ length vertices.old }
    ensures { vertices.new ≡ less_into vertices.old vertex }
{
    let edges_in = &mut vertices[VERTEX_WORDS * vertex + IN_COUNT];
    *edges_in = edges_in.saturating_sub(1);
}

#[tactic(auto, unfolding(crate::specs::Commands::appended))]
pub(crate) fn append_edge(edges: &mut [u32], row: usize, source: u32, target: u32)
    requires { edge_words * row + edge_words ≤ length edges.old }
    ensures { edges.new ≡ appended edges.old row source target }
{
    edges[EDGE_WORDS * row + SOURCE] = source;
    edges[EDGE_WORDS * row + TARGET] = target;
}
