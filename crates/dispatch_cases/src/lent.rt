// A program of an edition on lent tables, and dispatches with what they answer and leave written down.
use crate::show::{Handed, JOB_WORDS};
use cases::changes::Change;
use cases::{Left, sum};
use engine::load::load_by_value;
use graph::Tally;
use program::Edition;
use std::io;
use std::io::Write;
use walks::DispatchAnswer;
use walks::dispatches::dispatch_by_value;

// More steps than any of the programs takes.
pub(crate) const ENOUGH: u32 = 8192;

// Marks, and words of the list, for the smallest tables.
const FEW: usize = 2 * JOB_WORDS;

pub(crate) const NOTHING: Tally = Tally {
    made: 0,
    held: 0,
    steps: 0,
};

// `engine_cases` has one of its own: in `cases` it would have the programs that need no engine stand on the engine.
#[derive(Drop)]
pub(crate) struct Lent<'a> {
    pub program: &'a [u8],
    pub edition: Edition,
    pub vertices: &'a mut [u32],
    pub edges: &'a mut [u32],
    pub tally: Tally,
}

impl<'a> Lent<'a> {
    pub(crate) fn load(&mut self) {
        let done = load_by_value(
            self.program,
            self.vertices,
            self.edges,
            self.tally,
            self.edition,
        );
        self.tally = done.tally;
    }

    // A loading, and a dispatch of so many steps, of which nothing is written.
    pub(crate) fn begin(&mut self, steps: u32) {
        let mut busy = [0u32; FEW];
        let mut jobs = [0u32; FEW];
        self.load();
        self.dispatch(steps, &mut busy, &mut jobs);
    }

    fn dispatch(&mut self, budget: u32, busy: &mut [u32], jobs: &mut [u32]) -> DispatchAnswer {
        let done = dispatch_by_value(
            self.program,
            self.vertices,
            self.edges,
            self.tally,
            self.edition,
            budget,
            busy,
            jobs,
        );
        self.tally = done.tally;
        done.answer
    }

    // What the last call left, to the end of the line.
    fn left(&self, out: &mut impl Write) -> io::Result<()> {
        let left = Left {
            tally: self.tally,
            vertices: self.vertices,
            edges: self.edges,
        };
        writeln!(out, "{left}")
    }

    pub(crate) fn alter(&mut self, change: Change) {
        self.tally = change.make(self.vertices, self.edges, self.tally);
    }

    // A dispatch, whose answer it hands on.
    pub(crate) fn write_dispatch(
        &mut self,
        out: &mut impl Write,
        budget: u32,
        busy: &mut [u32],
        jobs: &mut [u32],
    ) -> io::Result<DispatchAnswer> {
        let answer = self.dispatch(budget, busy, jobs);
        write!(
            out,
            "{} | {} {}",
            Handed { answer, jobs },
            sum(busy),
            sum(jobs)
        )?;
        self.left(out)?;
        Ok(answer)
    }
}
