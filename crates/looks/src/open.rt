// The open vertices: who may step, as far as its own row tells, and is neither busy nor shut.
ghost use Rattle.std.specs.Prelude.{◌≡◌, ◌*◌, ◌+◌, ◌<◌, ◌≤◌, length};
ghost use Rattle.graph.specs.Tables.{vertex_words};
ghost use Rattle.index.specs.Underway.{may_step};
ghost use Rattle.looks.specs.Looking.{is_free, is_open, FirstOpen};

use graph::rows::{EXECUTING, IN_COUNT, RELEASED, STATUS, VERTEX_WORDS};

// The first open vertex from `from` on, or `made` where there is none: with an `Option` each caller, which goes on up to `made`, would turn it into that.
pub fn next_open(vertices: &[u32], busy: &[u32], shut: &[u32], made: u32, from: u32) -> u32
    requires { (vertex_words * made ≤ length vertices.now) × (made ≤ length shut.now) }
    ensures { FirstOpen vertices.now busy.now shut.now made from result }
{
    for vertex in from..made {
        if is_open(vertices, busy, shut, vertex) {
            return vertex;
        }
    }
    made
}

// A vertex may step, as far as its own row tells, is not busy and is not shut.
pub fn is_open(vertices: &[u32], busy: &[u32], shut: &[u32], vertex: u32) -> bool
    requires { (vertex_words * vertex + vertex_words ≤ length vertices.now) × (vertex < length shut.now) }
    ensures { result ≡ is_open vertices.now busy.now shut.now vertex }
{
    is_free(vertices, busy, vertex) && shut[vertex as usize] == 0
}

// A vertex may step, as far as its own row tells, and is not busy.
fn is_free(vertices: &[u32], busy: &[u32], vertex: u32) -> bool
    requires { vertex_words * vertex + vertex_words ≤ length vertices.now }
    ensures { result ≡ is_free vertices.now busy.now vertex }
{
    let at = vertex as usize;
    may_step(vertices, at) && (busy.len() <= at || busy[at] == 0)
}

// A vertex may step, as far as its own row tells: it executes, or it is released and its word says that no edge leads into it.
pub fn may_step(vertices: &[u32], vertex: usize) -> bool
    requires { vertex_words * vertex + vertex_words ≤ length vertices.now }
    ensures { result ≡ may_step vertices.now vertex }
{
    let status = vertices[VERTEX_WORDS * vertex + STATUS];
    status == EXECUTING || status == RELEASED && vertices[VERTEX_WORDS * vertex + IN_COUNT] == 0
}
