// The lister, over lent tables: `first_line` loads a program and `next_line` steps its lowest vertex, both in the edition named, and each hands
// out the line that a program has to write then. specs/Lines.antt tells which lines these are.
#![tactic(auto)]

pub mod out;
mod text;

ghost use Rattle.std.specs.Prelude.{◌≤◌, length};
ghost use Rattle.graph.specs.Tables.{lent};
ghost use Rattle.listing.specs.Lines.{first_text, next_text, unused, FirstLine, NextLine};

pub use crate::text::{Heading, Refused, Step};
use engine::load::load_by_value;
use engine::look::lowest_vertex;
use engine::steps::step_by_value;
use graph::Tally;
use program::Edition;
use program::reading::read;
use refusal::Refusal;

// No line is longer, its end included.
pub const LINE_BYTES: usize = 64;

// Loads a program. The line is the heading, with the tally with which the next one is asked for, or the refusal.
pub fn first_line(
    program: &[u8],
    vertices: &mut [u32],
    edges: &mut [u32],
    edition: Edition,
) -> Result<(Heading, Tally), Refusal>
    ensures line { FirstLine edition program.now (unused vertices.old edges.old) result (first_text result) vertices.new edges.new }
    ensures short { length (first_text result) ≤ LINE_BYTES }
{
    let items = read(program, edition)?;
    let nothing = Tally {
        made: 0,
        held: 0,
        steps: 0,
    };
    let loaded = load_by_value(program, vertices, edges, nothing, edition);
    loaded.answer?;
    Ok((Heading::of(items, edition), loaded.tally))
}

// Steps the lowest vertex that can step, as `lowest_vertex` finds it. The line is that step's, with the tally with which the next one is asked
// for; there is none where that finds none or is refused.
pub fn next_line(
    program: &[u8],
    vertices: &mut [u32],
    edges: &mut [u32],
    tally: Tally,
    edition: Edition,
) -> Option<(Step, Tally)>
    ensures line { NextLine edition program.now (lent vertices.old edges.old tally) result (next_text result) vertices.new edges.new }
    ensures short { length (next_text result) ≤ LINE_BYTES }
{
    let Ok(Some(vertex)) = lowest_vertex(program, vertices, edges, tally, edition) else {
        return None;
    };
    let done = step_by_value(program, vertices, edges, tally, edition, vertex);
    Some((Step::of(vertex, done.answer), done.tally))
}
