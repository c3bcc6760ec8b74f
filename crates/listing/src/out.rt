// The listing of a program in an edition, written into a sink or to standard output: all of its lines, in order, and nothing else. What standard
// input gives and standard output takes no contract can say.
ghost use Rattle.std.specs.Prelude.{◌≡◌, ◌+◌, ◌≤◌, ◌++◌, IfSome, OnOk, length, take};
ghost use Rattle.std.specs.Io.KnownBytes.{Appends};
ghost use Rattle.listing.specs.Listing.{Lists};
ghost use Rattle.listing.specs.Text.{codes};

use crate::{LINE_BYTES, Refused, first_line, next_line};
use graph::rows::{EDGE_TABLE, VERTEX_TABLE};
use program::Edition;
use program::format::PROGRAM_BYTES;
use standard_streams::{StandardInput, StandardOutput};
use std::fmt::{Display, InlineText, Write as _};
use std::io::{Read, Result, Write};

// Lists the program that standard input holds, to standard output. Where reading fails, what was read until then is listed, and it ends
// quietly where it cannot write.
pub fn list_input(edition: Edition) {
    let _ = try_list_input(&mut StandardInput::new(), &mut StandardOutput, edition);
}

// Lists a program to standard output. It ends quietly where it cannot write.
pub fn list(program: &[u8], edition: Edition) {
    let _ = try_list(&mut StandardOutput, program, edition);
}

// Lists the program that the input holds. One byte more is read than a program may have, so that a longer input is refused. Where reading
// fails, what was read until then is listed, and the error is handed on.
pub fn try_list_input<R: Read, W: Write>(input: &mut R, out: &mut W, edition: Edition) -> Result<()>
    ensures { OnOk result (IfSome (R.remaining input.old) (λ bytes. Lists edition (take (PROGRAM_BYTES + 1) bytes) (W.contents out.old) (W.contents out.new))) }
{
    let mut program = [0u8; PROGRAM_BYTES + 1];
    let (length, read) = fill(input, &mut program);
    try_list(out, &program[..length], edition)?;
    read
}

// Reads until the buffer is full, the input ends or a read fails, and answers how many bytes it put at the buffer's start, and that error.
fn fill<R: Read>(input: &mut R, buffer: &mut [u8]) -> (usize, Result<()>)
    ensures bound { result.0 ≤ length buffer.new }
    ensures bytes { OnOk result.1 (IfSome (R.remaining input.old) (λ bytes. take result.0 buffer.new ≡ take (length buffer.old) bytes)) }
{
    let mut filled = 0;
    // No `for`: a read says itself how far it went, and on an error what came before counts.
    while filled < buffer.len() {
        match input.read(&mut buffer[filled..]) {
            Ok(0) => break,
            Ok(n) => filled += n,
            Err(error) => return (filled, Err(error)),
        }
    }
    (filled, Ok(()))
}

// Lists a program. The tables have all the rows that any program can need.
pub fn try_list<W: Write>(out: &mut W, program: &[u8], edition: Edition) -> Result<()>
    ensures { OnOk result (Lists edition program.now (W.contents out.old) (W.contents out.new)) }
{
    let mut vertices = [0u32; VERTEX_TABLE];
    let mut edges = [0u32; EDGE_TABLE];
    let (heading, mut tally) = match first_line(program, &mut vertices, &mut edges, edition) {
        Ok(first) => first,
        Err(refusal) => return write_line(out, &Refused(refusal)),
    };
    write_line(out, &heading)?;
    while let Some((step, after)) = next_line(program, &mut vertices, &mut edges, tally, edition) {
        write_line(out, &step)?;
        tally = after;
    }
    Ok(())
}

// Writes a line and its end by one write, so that whoever reads meanwhile sees whole lines. A line that is longer than any of the lister's would
// go out in parts.
fn write_line<W: Write, D: Display>(out: &mut W, line: &D) -> Result<()>
    ensures { OnOk result (IfSome (D.output line.now) (λ bytes. Appends (W.contents out.old) (W.contents out.new) (bytes ++ codes "\n"))) }
{
    let mut text = InlineText::<LINE_BYTES>::new();
    match writeln!(text, "{line}") {
        Ok(()) => out.write_all(text.as_str().as_bytes()),
        Err(_) => writeln!(out, "{line}"),
    }
}
