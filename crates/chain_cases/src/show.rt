// Asks for a chain, and shows what was answered and what the list then holds.
use cases::{Refused, sum};
use chains::showing::chain_by_value;
use graph::Tally;
use refusal::Refusal;
use std::io::Write;
use std::{fmt, io};

// What was answered.
#[derive(Clone, Copy)]
struct Said(Result<u32, Refusal>);

impl fmt::Display for Said {
    fn fmt<W: fmt::Write>(&self, f: &mut fmt::Formatter<W>) -> fmt::Result {
        match self.0 {
            Ok(vertices) => write!(f, "chain {vertices}"),
            Err(refusal) => write!(f, "{}", Refused(refusal)),
        }
    }
}

// What is asked, and what is answered.
fn asked(
    out: &mut impl Write,
    vertices: &[u32],
    edges: &[u32],
    tally: Tally,
    source: u32,
    target: u32,
    list: &mut [u32],
) -> io::Result<()> {
    let answer = chain_by_value(vertices, edges, tally, source, target, list);
    write!(out, "from {target} to {source}: {} |", Said(answer))
}

// With every word of the list.
pub(crate) fn call(
    out: &mut impl Write,
    vertices: &[u32],
    edges: &[u32],
    tally: Tally,
    source: u32,
    target: u32,
    list: &mut [u32],
) -> io::Result<()> {
    asked(out, vertices, edges, tally, source, target, list)?;
    for word in list {
        write!(out, " {word}")?;
    }
    writeln!(out)
}

// With a sum over the list.
pub(crate) fn sum_of_call(
    out: &mut impl Write,
    vertices: &[u32],
    edges: &[u32],
    tally: Tally,
    source: u32,
    target: u32,
    list: &mut [u32],
) -> io::Result<()> {
    asked(out, vertices, edges, tally, source, target, list)?;
    writeln!(out, " {}", sum(list))
}
