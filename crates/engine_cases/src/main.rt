// Loads programs, steps their vertices and runs them, and writes what each call answers and leaves:
//     programs   docs/ENGINE.md's examples, larger ones, refused ones, and programs refused for their rows, whose tables then hold words that
//                no loading made; in one edition or in both, stepped in a fixed scheme
//     examples   its examples at the limits, a vertex altered to a place inside a number, edges written before their step, and words that
//                name another future
//     editions   orders of a fork that yields, and calls of the edition that did not load
//     counts     moments at which the number of edges into a vertex, another word or the tally is altered
//     soak       drawn programs of a drawn edition, each in several orders, with refused names among the steps, and with steps of the other
//                edition; the numbers of edges are compared
// tests/engine_cases.py computes the same lines from a model of its own; `stdout` holds them.
#![tactic(auto)]

mod counts;
mod editions;
mod examples;
mod lent;
mod programs;
mod show;
mod soak;
mod turns;

use standard_streams::StandardOutput;
use std::io;
use std::io::Write;

// It ends quietly where it cannot write.
fn main() {
    let _ = all(&mut StandardOutput);
}

fn all(out: &mut impl Write) -> io::Result<()> {
    programs::all(out)?;
    examples::all(out)?;
    editions::all(out)?;
    counts::all(out)?;
    soak::all(out)
}
