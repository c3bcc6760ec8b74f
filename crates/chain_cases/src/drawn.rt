// Drawn graphs of at most eight vertices. Every pair of numbers up to eight is asked for, with lists of drawn lengths; a line has a sum over
// what was answered, and one over all lists.
ghost use Rattle.std.specs.Prelude.{◌≡◌, length};

use cases::draw::{Draw, begin};
use cases::sum;
use chains::showing::chain_by_value;
use graph::Tally;
use graph::rows::{EDGE_WORDS, NEW, STATUS, VERTEX_WORDS};
use std::io;
use std::io::Write;

// The pairs that are asked for: numbers below this.
const NUMBERS: usize = 9;

const PAIRS: usize = NUMBERS * NUMBERS;

// Words for each pair's list, of which it gets fewer than the second number.
const ROOM: usize = 10;

const WORDS_BELOW: u32 = 11;

pub(crate) fn all(out: &mut impl Write) -> io::Result<()> {
    writeln!(out, "drawn")?;
    for seed in 0..300 {
        graph(out, seed)?;
    }
    Ok(())
}

fn graph(out: &mut impl Write, seed: u32) -> io::Result<()> {
    let mut vertices = [NEW; 8 * VERTEX_WORDS];
    let mut edges = [0u32; 14 * EDGE_WORDS];
    let d = begin(seed).next();
    let made = 2 + d.below(7);
    let held = d.next().below(15);
    let status = d.next().next().below(40);
    vertices[VERTEX_WORDS + STATUS] = if status < 36 { 1 + status % 4 } else { 5 };
    ends(&mut edges, made, d.next().next().next());
    let tally = Tally {
        made,
        held,
        steps: 0,
    };
    pairs(out, &vertices, &edges, tally, begin(seed))
}

// Mostly made vertices.
fn ends(edges: &mut [u32], made: u32, d: Draw) {
    let mut now = d;
    for place in edges {
        *place = end(now, made);
        now = now.next().next();
    }
}

fn end(d: Draw, made: u32) -> u32 {
    if d.below(400) == 0 {
        return made;
    }
    d.next().below(made)
}

fn pairs(
    out: &mut impl Write,
    vertices: &[u32],
    edges: &[u32],
    tally: Tally,
    d: Draw,
) -> io::Result<()> {
    let mut lists = [77u32; ROOM * PAIRS];
    let mut answers = [0u32; PAIRS];
    each(vertices, edges, tally, d, &mut lists, &mut answers);
    writeln!(
        out,
        "{} {} | {} {}",
        tally.made,
        tally.held,
        sum(&answers),
        sum(&lists)
    )
}

fn each(
    vertices: &[u32],
    edges: &[u32],
    tally: Tally,
    d: Draw,
    lists: &mut [u32],
    answers: &mut [u32],
)
    requires { (length lists.old ≡ 810) × (length answers.old ≡ 81) }
{
    let mut now = d;
    // By number, since a pair's source, target, answer and list are all told by it.
    for k in 0..PAIRS {
        now = now.next();
        let words = now.below(WORDS_BELOW) as usize;
        let source = (k / NUMBERS) as u32;
        let target = (k % NUMBERS) as u32;
        answers[k] = asked(
            vertices,
            edges,
            tally,
            source,
            target,
            &mut lists[ROOM * k..ROOM * k + words],
        );
    }
}

// How many vertices, or 100 more than the refusal.
fn asked(
    vertices: &[u32],
    edges: &[u32],
    tally: Tally,
    source: u32,
    target: u32,
    list: &mut [u32],
) -> u32 {
    match chain_by_value(vertices, edges, tally, source, target, list) {
        Ok(vertices) => vertices,
        Err(refusal) => 100 + refusal.reason.number() % 100,
    }
}
