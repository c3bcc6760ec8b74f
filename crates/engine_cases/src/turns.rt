// The turns of a program. Each accepted step has a line; the refused ones are counted by their numbers, and all that they left and
// were answered goes into one sum.
use crate::lent::Lent;
use crate::show::{Said, Which};
use cases::try_program_line;
use engine::Answer;
use graph::Tally;
use program::Edition;
use refusal::Refusal;
use std::io;
use std::io::Write;

// A loading, a look, a short run, the turns, and a run.
pub(crate) fn run(
    out: &mut impl Write,
    program: &[u8],
    vertices: &mut [u32],
    edges: &mut [u32],
    edition: Edition,
) -> io::Result<()> {
    write!(out, "{} ", Which(edition))?;
    try_program_line(out, program)?;
    let mut lent = Lent {
        program,
        edition,
        vertices,
        edges,
        tally: Tally {
            made: 5,
            held: 6,
            steps: 8172,
        },
    };
    lent.write_load(out)?;
    lent.write_lowest(out)?;
    lent.write_run(out, 3)?;
    turned(out, &mut lent)
}

// The turns, and a run.
pub(crate) fn turned(out: &mut impl Write, lent: &mut Lent<'_>) -> io::Result<()> {
    let mut counts = [0u32; 40];
    let mut sum: u64 = 0;
    for turn in 0..1200u32 {
        let vertex = named(turn, lent.tally.made);
        let answer = lent.step(vertex, lent.edition);
        if let Answer::Refused(refusal) = answer {
            sum = one_more(sum, vertex, refusal, lent);
            count(&mut counts, refusal.reason.number());
        } else {
            write!(out, "{vertex} {}", Said(answer))?;
            lent.left(out)?;
            count(&mut counts, 0);
        }
    }
    all_counts(out, &counts)?;
    write!(out, " sum {sum}")?;
    lent.left(out)?;
    lent.write_run(out, 60)
}

// The vertex of a turn: all that are made, and the two next numbers.
fn named(turn: u32, made: u32) -> u32 {
    (turn % 8192 * 5 + turn / 9) % (made % 4096 + 2)
}

// The sum, with a refused step of this vertex in it.
fn one_more(sum: u64, vertex: u32, refusal: Refusal, lent: &Lent<'_>) -> u64 {
    let refused = (refusal.reason.number() as u64) * 4294967296 + (refusal.place as u64);
    let tables = (cases::sum(lent.vertices) as u64) + (cases::sum(lent.edges) as u64);
    let tally = lent.tally;
    let numbers = (tally.made as u64) + (tally.held as u64) + (tally.steps as u64);
    (sum % 1000003 * 31 + refused % 1000003 + (vertex as u64) * 64 + tables + numbers) % 1000003
}

fn count(counts: &mut [u32], number: u32) {
    if let Some(count) = counts.get_mut(number as usize) {
        *count = count.saturating_add(1);
    }
}

// Accepted steps stand under 0.
fn all_counts(out: &mut impl Write, counts: &[u32]) -> io::Result<()> {
    write!(out, "counts")?;
    for (number, &count) in counts.iter().enumerate() {
        if 0 < count {
            write!(out, " {number}:{count}")?;
        }
    }
    Ok(())
}
