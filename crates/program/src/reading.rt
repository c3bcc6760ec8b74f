// Reading a whole program, and what a program needs.
ghost use Rattle.std.specs.Prelude.{◌*◌, ◌≤◌, ◌≡◌};
ghost use Rattle.program.specs.Encodings.{vertex_formula, edge_row_formula, step_formula, fork_vertices, fork_steps};
ghost use Rattle.program.specs.Reader.{reading};
ghost use Rattle.program.specs.Answers.{item_counts, said, told};
ghost use Rattle.program.specs.Internal.Progress.{finished};

use crate::format::{PROGRAM_BYTES, VERTEX_LIMIT};
use crate::{Edition, Inside, ItemCounts, Reader};
use refusal::{Reason, Refusal};

// Vertices made in all by a program with these items.
pub fn vertices(items: ItemCounts, edition: Edition) -> u64
    ensures { result ≡ vertex_formula edition (item_counts items) }
{
    2 + items.asyncs as u64
        + 2 * items.finishes as u64
        + fork_vertices(items.forks, edition)
        + 2 * items.futures as u64
        + items.forces as u64
}

// Edge rows that it needs.
pub fn edge_rows(items: ItemCounts) -> u64
    ensures { result ≡ edge_row_formula (item_counts items) }
{
    1 + items.asyncs as u64
        + items.finishes as u64
        + 2 * items.forks as u64
        + items.futures as u64
        + items.forces as u64
}

// The vertices that so many forks make. It and `fork_steps` stand apart, as their definitions do: the paper gives each by itself.
#[tactic(auto, unfolding(crate::specs::Encodings::fork_vertices))]
pub(crate) fn fork_vertices(forks: u16, edition: Edition) -> u64
    ensures { (result ≡ fork_vertices edition * forks) × (result ≤ 3 * forks) }
{
    match edition {
        Edition::First => 3 * forks as u64,
        Edition::Second => 2 * forks as u64,
    }
}

// Steps that it takes.
pub fn steps(items: ItemCounts, edition: Edition) -> u64
    ensures { result ≡ step_formula edition (item_counts items) }
{
    4 + items.jobs as u64
        + 5 * items.asyncs as u64
        + 10 * items.finishes as u64
        + fork_steps(items.forks, edition)
        + 9 * items.futures as u64
        + 6 * items.forces as u64
}

// The steps that so many forks take.
#[tactic(auto, unfolding(crate::specs::Encodings::fork_steps))]
fn fork_steps(forks: u16, edition: Edition) -> u64
    ensures { (result ≡ fork_steps edition * forks) × (result ≤ 15 * forks) }
{
    match edition {
        Edition::First => 15 * forks as u64,
        Edition::Second => 12 * forks as u64,
    }
}

// The counts of a program's items, or the first refusal. Only what its forks make goes by the edition.
pub fn read(program: &[u8], edition: Edition) -> Result<ItemCounts, Refusal>
    ensures { said result ≡ told (reading edition program.now) }
{
    if program.is_empty() || PROGRAM_BYTES < program.len() {
        return Err(Reason::LengthOutside.into());
    }
    let main = Inside {
        level: 1,
        opened: 0,
    };
    let end = Reader::at(0).body(program, main)?;
    counted(end, program.len(), edition)
}

// What a reader behind the main body's end comes to, in a program of this length.
#[tactic(auto, using(crate::proofs::WholeLaws::bytes_left, crate::proofs::WholeLaws::vertices_over, crate::proofs::WholeLaws::all_read))]
fn counted(end: Reader, length: usize, edition: Edition) -> Result<ItemCounts, Refusal>
    ensures { said result ≡ finished edition length end.place (item_counts end.seen) }
{
    if (end.place as usize) < length {
        return Err(end.refused(Reason::BytesAfterEnd));
    }
    if VERTEX_LIMIT < vertices(end.seen, edition) {
        return Err(Reason::TooManyVertices.into());
    }
    Ok(end.seen)
}
