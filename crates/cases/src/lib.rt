// What the programs of cases share: how they show a program's bytes, a refusal and what a call left, a sum over a table that any changed word
// shows in, and numbers that look drawn.
#![tactic(auto)]

pub mod changes;
pub mod draw;

ghost use Rattle.std.specs.Prelude.{◌≡◌, ◌++◌, Some, OnOk, codes};
ghost use Rattle.std.specs.Io.KnownBytes.{Appends};
ghost use Rattle.cases.specs.Shown.{bytes_text, refused_text, left_text};
ghost use Rattle.cases.specs.Sums.{table_sum};

use graph::Tally;
use refusal::Refusal;
use standard_streams::StandardOutput;
use std::{fmt, io};

// Each byte of a program in two hex digits, with a space before it.
#[derive(Clone, Copy)]
pub struct Bytes<'a>(pub &'a [u8]);

impl<'a> fmt::Display for Bytes<'a> {
    ghost output = { λ b. Some (bytes_text b.0.now) };

    fn fmt<W: fmt::Write>(&self, f: &mut fmt::Formatter<W>) -> fmt::Result {
        for &byte in self.0 {
            write!(f, " {byte:02x}")?;
        }
        Ok(())
    }
}

// A refusal's number and place.
#[derive(Clone, Copy)]
pub struct Refused(pub Refusal);

impl fmt::Display for Refused {
    ghost output = { λ r. Some (refused_text r.0) };

    fn fmt<W: fmt::Write>(&self, f: &mut fmt::Formatter<W>) -> fmt::Result {
        let Refusal { reason, place } = self.0;
        let number = reason.number();
        write!(f, "refused {number} {place}")
    }
}

// What a call left: the tally, and a sum over each table.
#[derive(Clone, Copy)]
pub struct Left<'a> {
    pub tally: Tally,
    pub vertices: &'a [u32],
    pub edges: &'a [u32],
}

impl<'a> fmt::Display for Left<'a> {
    ghost output = { λ l. Some (left_text l.tally l.vertices.now l.edges.now) };

    fn fmt<W: fmt::Write>(&self, f: &mut fmt::Formatter<W>) -> fmt::Result {
        let Tally { made, held, steps } = self.tally;
        let vertices = sum(self.vertices);
        let edges = sum(self.edges);
        write!(f, " | {made} {held} {steps} | {vertices} {edges}")
    }
}

// The line with a program's bytes, to standard output. It ends quietly where it cannot write.
pub fn program_line(program: &[u8]) {
    let _ = try_program_line(&mut StandardOutput, program);
}

// The line with a program's bytes.
pub fn try_program_line<W: io::Write>(out: &mut W, program: &[u8]) -> io::Result<()>
    ensures { OnOk result (Appends (W.contents out.old) (W.contents out.new) (codes "program" ++ bytes_text program.now ++ codes "\n")) }
{
    writeln!(out, "program{}", Bytes(program))
}

pub fn sum(table: &[u32]) -> u32
    ensures { result ≡ table_sum table.now }
{
    let mut total: u64 = 0;
    for &word in table {
        total = (total * 31 + (word as u64) + 1) % 1000003;
    }
    total as u32
}
