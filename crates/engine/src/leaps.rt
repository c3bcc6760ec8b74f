// Tables of leaps: what a force follows, in steps of one, eight and sixty-four futures. Where many vertices are looked at, filling them once
// costs less than following every word from each.
ghost use Rattle.std.specs.Prelude.{◌≡◌, ◌+◌, ◌*◌, ◌<◌, ◌≤◌, length};
ghost use Rattle.graph.specs.Tables.{usable_limit, vertex_words};
ghost use Rattle.engine.specs.Answers.{due_of, vertex_of};
ghost use Rattle.engine.specs.Internal.Underway.{DueThere};
ghost use Rattle.engine.specs.Internal.Leaping as leaping;
ghost use Rattle.engine.specs.Internal.Leaping.{HopsAt, Leaps, Within, LeadsTo, LeapsTo, SameBelow, EightTold};

use crate::Due;
use crate::next::{Executing, open_future, own_words};
use graph::rows::{FUTURE, SCOPE, USABLE_LIMIT, VERTEX_WORDS};
use program::ItemRead;
use program::marked::MarkedProgram;

// A table's word where none is open. An `Option` takes eight bytes for four, and the tables lie on the stack.
const NONE_OPEN: u32 = 0;

// Three tables one behind the other, with a word for each vertex: where one hop, eight and sixty-four lead.
pub const LEAP_WORDS: usize = 3 * USABLE_LIMIT;

// What is due at a step of a vertex that executes, where these are the leaps.
pub fn leaping_due(
    program: &MarkedProgram,
    vertices: &[u32],
    leaps: &[u32],
    made: u32,
    vertex: u32,
) -> Due
    requires { (vertex < made) × (vertex_words * made ≤ length vertices.now) × Leaps vertices.now made leaps.now }
    ensures { DueThere program.now.edition program.now.bytes.now vertices.now made vertex (due_of result) }
{
    let own = own_words(vertices, vertex as usize);
    let at = Executing {
        vertex,
        scope: vertices[VERTEX_WORDS * (vertex as usize) + SCOPE],
        own,
        made,
    };
    let item = program.item_for_looks(own.place);
    match item {
        ItemRead::Force { number, .. } if own.phase == 1 => {
            at.force_edge(leapt(leaps, made, own.latest, number))
        }
        _ => at.by_item(program.bytes, item, vertices, program.edition),
    }
}

// What a force follows, by its leaps.
fn leapt(leaps: &[u32], made: u32, latest: u32, number: u32) -> Option<u32>
    requires { Within made leaps.now 0 × Within made leaps.now usable_limit × Within made leaps.now (2 * usable_limit) }
    ensures { LeapsTo made leaps.now latest number (vertex_of result) }
{
    let from = open_future(made, latest)?;
    let far = hopped(leaps, made, 2 * USABLE_LIMIT, from, number / 64);
    let near = hopped(leaps, made, USABLE_LIMIT, far, number / 8 % 8);
    open_future(made, hopped(leaps, made, 0, near, number % 8))
}

// Where so many turns of the table from `from` on lead, from one of the made vertices.
fn hopped(leaps: &[u32], made: u32, from: usize, vertex: u32, turns: u32) -> u32
    requires { Within made leaps.now from × (vertex < made) }
    ensures { (result < made) × LeadsTo made leaps.now from vertex turns result }
{
    let mut at = vertex;
    for _ in 0..turns {
        at = leaps[from + (at as usize)];
    }
    at
}

// Fills the tables of leaps.
pub fn fill_leaps(vertices: &[u32], made: u32, leaps: &mut [u32])
    requires { (vertex_words * made ≤ length vertices.now) × (made ≤ usable_limit) × (length leaps.old ≡ 3 * usable_limit) }
    ensures { Leaps vertices.now made leaps.new }
{
    fill_hops(vertices, made, leaps);
    fill_eightfold(made, 0, leaps);
    fill_eightfold(made, USABLE_LIMIT, leaps);
}

// The first table: single hops. Here and in the next a vertex's number is counted along, since it is what is asked for and where it is told.
fn fill_hops(vertices: &[u32], made: u32, leaps: &mut [u32])
    requires { (vertex_words * made ≤ length vertices.now) × (made ≤ length leaps.old) }
    ensures { HopsAt vertices.now made leaps.new 0 1 made }
{
    for v in 0..made {
        leaps[v as usize] = hop(vertices, made, v);
    }
}

// The table behind the one from `from` on: eight times as far.
fn fill_eightfold(made: u32, from: usize, leaps: &mut [u32])
    requires { Within made leaps.old from × (made ≤ usable_limit) × (from + usable_limit + made ≤ length leaps.old) }
    ensures { SameBelow (from + usable_limit) leaps.old leaps.new × EightTold made from leaps.old leaps.new made }
{
    for v in 0..made {
        leaps[from + USABLE_LIMIT + (v as usize)] = hopped(leaps, made, from, v, 8);
    }
}

// The future that a vertex's word names, or `NONE_OPEN`.
#[tactic(auto, using(crate::proofs::LeapLaws::hop_read, crate::proofs::LeapLaws::hop_none))]
fn hop(vertices: &[u32], made: u32, vertex: u32) -> u32
    requires { (vertex < made) × (vertex_words * made ≤ length vertices.now) }
    ensures { result ≡ leaping.hop vertices.now made vertex }
{
    if vertex == NONE_OPEN {
        return NONE_OPEN;
    }
    open_future(made, vertices[VERTEX_WORDS * (vertex as usize) + FUTURE]).unwrap_or(NONE_OPEN)
}
