// A program of an edition on lent tables. The calls are made on them, and what they answered and left is written.
use crate::show::{Ran, Said};
use cases::changes::Change;
use cases::{Left, Refused};
use engine::Answer;
use engine::load::load_by_value;
use engine::look::lowest_vertex;
use engine::steps::step_by_value;
use graph::Tally;
use program::Edition;
use refusal::Refusal;
use std::io;
use std::io::Write;
use walks::runs::run_by_value;

pub(crate) const NOTHING: Tally = Tally {
    made: 0,
    held: 0,
    steps: 0,
};

// `dispatch_cases` has one of its own: in `cases` it would have the programs that need no engine stand on the engine.
#[derive(Drop)]
pub(crate) struct Lent<'a> {
    pub program: &'a [u8],
    pub edition: Edition,
    pub vertices: &'a mut [u32],
    pub edges: &'a mut [u32],
    pub tally: Tally,
}

impl<'a> Lent<'a> {
    // What the last call left, to the end of the line.
    pub(crate) fn left(&self, out: &mut impl Write) -> io::Result<()> {
        let left = Left {
            tally: self.tally,
            vertices: self.vertices,
            edges: self.edges,
        };
        writeln!(out, "{left}")
    }

    pub(crate) fn load(&mut self) -> Result<(), Refusal> {
        let done = load_by_value(
            self.program,
            self.vertices,
            self.edges,
            self.tally,
            self.edition,
        );
        self.tally = done.tally;
        done.answer
    }

    pub(crate) fn step(&mut self, vertex: u32, edition: Edition) -> Answer {
        let done = step_by_value(
            self.program,
            self.vertices,
            self.edges,
            self.tally,
            edition,
            vertex,
        );
        self.tally = done.tally;
        done.answer
    }

    pub(crate) fn lowest(&self) -> Result<Option<u32>, Refusal> {
        lowest_vertex(
            self.program,
            self.vertices,
            self.edges,
            self.tally,
            self.edition,
        )
    }

    pub(crate) fn alter(&mut self, change: Change) {
        self.tally = change.make(self.vertices, self.edges, self.tally);
    }

    pub(crate) fn write_load(&mut self, out: &mut impl Write) -> io::Result<()> {
        match self.load() {
            Ok(()) => write!(out, "loaded")?,
            Err(refusal) => write!(out, "{}", Refused(refusal))?,
        }
        self.left(out)
    }

    pub(crate) fn write_step(&mut self, out: &mut impl Write, vertex: u32) -> io::Result<()> {
        let answer = self.step(vertex, self.edition);
        write!(out, "{vertex} {}", Said(answer))?;
        self.left(out)
    }

    pub(crate) fn write_run(&mut self, out: &mut impl Write, budget: u32) -> io::Result<()> {
        let done = run_by_value(
            self.program,
            self.vertices,
            self.edges,
            self.tally,
            self.edition,
            budget,
        );
        self.tally = done.tally;
        write!(out, "{}", Ran(done.answer))?;
        self.left(out)
    }

    // The lowest vertex that can step.
    pub(crate) fn write_lowest(&self, out: &mut impl Write) -> io::Result<()> {
        match self.lowest() {
            Ok(Some(vertex)) => writeln!(out, "lowest {vertex}"),
            Ok(None) => writeln!(out, "lowest none"),
            Err(refusal) => writeln!(out, "lowest {}", Refused(refusal)),
        }
    }

    // A look, a step of each of these vertices, a look and a run.
    pub(crate) fn write_calls(&mut self, out: &mut impl Write, stepped: &[u32]) -> io::Result<()> {
        self.write_lowest(out)?;
        self.write_steps(out, stepped)?;
        self.write_lowest(out)?;
        self.write_run(out, 60)
    }

    pub(crate) fn write_steps(&mut self, out: &mut impl Write, stepped: &[u32]) -> io::Result<()> {
        for &vertex in stepped {
            self.write_step(out, vertex)?;
        }
        Ok(())
    }
}
