// Reads many programs, and writes what reading answers and what stands at each place: docs/ENGINE.md's examples in either edition, the longest,
// deepest and largest programs and those just past the limits, with forks in either edition, every program of one or two bytes, and every
// fifth byte of a number.
// tests/program_cases.py computes the same lines from a reader of its own; `stdout` holds them.
#![tactic(auto)]

mod examples;
mod limits;
mod short;
mod show;

use standard_streams::StandardOutput;
use std::io;
use std::io::Write;

// It ends quietly where it cannot write.
fn main() {
    let _ = all(&mut StandardOutput);
}

fn all(out: &mut impl Write) -> io::Result<()> {
    examples::all(out)?;
    limits::all(out)?;
    short::all(out)
}
