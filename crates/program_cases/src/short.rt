// Every program of one and of two bytes, and every fifth byte of a job's number and of a force's. Those that differ in their last byte only
// and are answered alike stand together, as `first-last number place`; an accepted program has the number 0. All are far
// from the limit on vertices, with which alone the editions differ.
ghost use Rattle.std.specs.Prelude.{◌≡◌, ◌<◌, length};

use program::Edition;
use program::format::{FORCE, JOB};
use program::reading::read;
use std::io;
use std::io::Write;

pub(crate) fn all(out: &mut impl Write) -> io::Result<()> {
    last_bytes(out, &mut [0])?;
    for first in 0..=u8::MAX {
        write!(out, "{first:02x}")?;
        last_bytes(out, &mut [first, 0])?;
    }
    fifth_byte(out, JOB, 128)?;
    fifth_byte(out, JOB, 255)?;
    fifth_byte(out, FORCE, 128)?;
    fifth_byte(out, FORCE, 255)
}

// The last byte is the number's fifth, behind four that are the same.
fn fifth_byte(out: &mut impl Write, first: u8, others: u8) -> io::Result<()> {
    write!(out, "{first:02x} and four times {others:02x}")?;
    last_bytes(out, &mut [first, others, others, others, others, 0])
}

// The answers for each last byte.
fn last_bytes(out: &mut impl Write, program: &mut [u8]) -> io::Result<()>
    requires { 0 < length program.old }
{
    let mut since = 0;
    let mut before = with_last(program, 0);
    for last in 1..=u8::MAX {
        let answer = with_last(program, last);
        if answer != before {
            alike(out, since, last - 1, before)?;
            since = last;
            before = answer;
        }
    }
    alike(out, since, u8::MAX, before)?;
    writeln!(out)
}

fn alike(out: &mut impl Write, first: u8, last: u8, answer: (u32, u32)) -> io::Result<()> {
    let (number, place) = answer;
    write!(out, " {first:02x}-{last:02x} {number} {place}")
}

// What the program is answered with this last byte: a refusal's number and place.
fn with_last(program: &mut [u8], last: u8) -> (u32, u32)
    requires { 0 < length program.old }
    ensures { length program.new ≡ length program.old }
{
    let end = program.len() - 1;
    program[end] = last;
    match read(program, Edition::First) {
        Ok(_) => (0, 0),
        Err(refusal) => (refusal.reason.number(), refusal.place),
    }
}
