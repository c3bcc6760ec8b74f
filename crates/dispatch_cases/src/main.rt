// Has the jobs of programs handed out, and writes what each dispatch answers and leaves: how it ended, the steps taken, each job handed out, and
// sums of the marks, the list and the tables:
//     hosts     programs dispatched to their end on lists of several lengths, with a budget now and then, by hosts that end all jobs before the
//               next call, or only one
//     moments   moments of a program at which a word or the tally is altered and vertices are marked: each ending, the order in which a dispatch
//               looks for them, its refusals, marks that no dispatch made, and vertices whose step is refused
//     cycles    edges that the host has written, so that a step is refused until another vertex stops
// tests/dispatch_cases.py computes the same lines from a model of its own; `stdout` holds them.
#![tactic(auto)]

mod cycles;
mod hosts;
mod lent;
mod moments;
mod programs;
mod show;

use standard_streams::StandardOutput;
use std::io;
use std::io::Write;

// It ends quietly where it cannot write.
fn main() {
    let _ = all(&mut StandardOutput);
}

fn all(out: &mut impl Write) -> io::Result<()> {
    hosts::all(out)?;
    moments::all(out)?;
    cycles::all(out)
}
