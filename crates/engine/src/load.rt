// Loading a program.
ghost use Rattle.std.specs.Prelude.{◌≡◌, ◌-◌, ◌≤◌};
ghost use Rattle.graph.specs.declared.Tally.{Tally};
ghost use Rattle.graph.specs.Tables.{lent, in_count_word, vertex_rows, set_vertex_word};
ghost use Rattle.program.specs.Limits.{program_bytes};
ghost use Rattle.machine.specs.Loading.{placed, load};
ghost use Rattle.machine.specs.Traces.{Loaded};
ghost use Rattle.engine.specs.Answers.{loading_said};

use crate::LoadDone;
use graph::Tally;
use graph::commands::open_by_value;
use graph::rows::{IN_COUNT, PLACE, RELEASED, SCOPE, STATUS, VERTEX_WORDS, edge_rows, vertex_rows};
use program::Edition;
use program::reading::read;
use refusal::{Reason, Refusal};

// Loads a program, with the tally by value: clears the usable rows and the tally, then sets vertices 0 and 1 and the edge between them.
pub fn load_by_value(
    program: &[u8],
    vertices: &mut [u32],
    edges: &mut [u32],
    tally: Tally,
    edition: Edition,
) -> LoadDone
    ensures { Loaded edition program.now (lent vertices.old edges.old tally) (loading_said result.answer) (lent vertices.new edges.new result.tally) }
{
    let answer = load_refusal(program, vertices, edges, edition);
    if answer.is_err() {
        return LoadDone { answer, tally };
    }
    open_by_value(vertices, edges, tally);
    place_first(vertices, program.len());
    edges[0] = 0;
    edges[1] = 1;
    LoadDone {
        answer,
        tally: Tally {
            made: 2,
            held: 1,
            steps: 0,
        },
    }
}

// What loading a program onto these tables answers: as reading is refused, or where rows are wanting.
fn load_refusal(
    program: &[u8],
    vertices: &[u32],
    edges: &[u32],
    edition: Edition,
) -> Result<(), Refusal>
    ensures { (t : Tally) → loading_said result ≡ (load edition program.now (lent vertices.now edges.now t)).answer }
{
    let items = read(program, edition)?;
    if (vertex_rows(vertices) as u64) < program::reading::vertices(items, edition) {
        return Err(Reason::TooFewVertexRows.into());
    }
    if (edge_rows(edges) as u64) < program::reading::edge_rows(items) {
        return Err(Reason::TooFewEdgeRows.into());
    }
    Ok(())
}

// Vertex 0 at the program's first byte and vertex 1 at its last, both released and with the scope 1, and one edge into vertex 1.
fn place_first(vertices: &mut [u32], length: usize)
    requires { (2 ≤ vertex_rows vertices.old) × (1 ≤ length) × (length ≤ program_bytes) }
    ensures { vertices.new ≡ set_vertex_word (placed (placed vertices.old 0 0) 1 (length - 1)) 1 in_count_word 1 }
{
    vertices[STATUS] = RELEASED;
    vertices[PLACE] = 0;
    vertices[SCOPE] = 1;
    vertices[VERTEX_WORDS + STATUS] = RELEASED;
    vertices[VERTEX_WORDS + PLACE] = (length - 1) as u32;
    vertices[VERTEX_WORDS + SCOPE] = 1;
    vertices[VERTEX_WORDS + IN_COUNT] = 1;
}
