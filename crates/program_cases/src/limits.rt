// The longest, deepest and largest programs, and those just past the limits.
ghost use Rattle.std.specs.Prelude.{◌≤◌, ◌<◌};

use crate::show;
use program::Edition;
use program::format::{ASYNC, FORCE, FORK, FUTURE, JOB};
use std::io;
use std::io::Write;

// One byte more than a program may have.
const ROOM: usize = 4097;

pub(crate) fn all(out: &mut impl Write) -> io::Result<()> {
    repeated(out, "nested", ASYNC, 1, 31, 63)?;
    repeated(out, "openers", ASYNC, 1, 32, 32)?;
    repeated(out, "nested", ASYNC, 1, 32, 65)?;
    repeated(out, "nested futures", FUTURE, 1, 31, 63)?;
    repeated(out, "nested futures", FUTURE, 1, 32, 65)?;
    repeated(out, "asyncs", ASYNC, 2, 1022, 2045)?;
    repeated(out, "asyncs", ASYNC, 2, 1023, 2047)?;
    repeated(out, "futures", FUTURE, 2, 511, 1023)?;
    repeated(out, "futures", FUTURE, 2, 512, 1025)?;
    forces(out, 1020, 2043)?;
    forces(out, 1021, 2045)?;
    forks(out, 340, 0, 1020)?;
    forks(out, 340, 2, 1020)?;
    forks(out, 340, 3, 1020)?;
    forks(out, 341, 0, 1023)?;
    forks(out, 511, 0, 1533)?;
    forks(out, 511, 1, 1533)?;
    forks(out, 512, 0, 1536)?;
    far_force(out, 128, 256)?;
    far_force(out, 129, 258)?;
    jobs(out, 4096)?;
    jobs(out, 4097)
}

// Openers of asyncs or of futures, each `step` bytes behind the one before it, and end bytes up to this length. Where `step` is 1 each holds
// the next, and where it is 2 each has an empty body.
fn repeated(
    out: &mut impl Write,
    title: &str,
    opener: u8,
    step: usize,
    count: usize,
    length: usize,
) -> io::Result<()>
    requires { 0 < step }
{
    let mut bytes = [0u8; ROOM];
    fill(&mut bytes, step, count, opener);
    write!(out, "{title} {count}")?;
    part(out, &bytes, length)
}

// A future with an empty body, and forces of it.
fn forces(out: &mut impl Write, count: usize, length: usize) -> io::Result<()> {
    let mut bytes = [0u8; ROOM];
    bytes[0] = FUTURE;
    fill(&mut bytes[2..], 2, count, FORCE);
    write!(out, "forces {count}")?;
    part(out, &bytes, length)
}

// Forks with empty bodies, and where they end asyncs with an empty body.
fn forks(out: &mut impl Write, count: usize, asyncs: usize, end: usize) -> io::Result<()>
    requires { (end ≤ 4000) × (asyncs ≤ 3) }
{
    let mut bytes = [0u8; ROOM];
    fill(&mut bytes, 3, count, FORK);
    fill(&mut bytes[end..], 2, asyncs, ASYNC);
    write!(out, "forks {count} asyncs {asyncs}")?;
    let program = &bytes[..end + 2 * asyncs + 1];
    let place = end as u32;
    show::readings(out, program)?;
    show::item(out, program, Edition::First, place)?;
    show::item(out, program, Edition::Second, place)
}

// Futures with an empty body, and where they end a force with the number 128.
fn far_force(out: &mut impl Write, count: usize, at: usize) -> io::Result<()>
    requires { at ≤ 4000 }
{
    let mut bytes = [0u8; ROOM];
    fill(&mut bytes, 2, count, FUTURE);
    bytes[at] = FORCE;
    bytes[at + 1] = 128;
    bytes[at + 2] = 1;
    write!(out, "force 128 of {count}")?;
    part(out, &bytes, at + 4)
}

// Jobs in a program of this length: the first has a number of two bytes, the others have the number 0.
fn jobs(out: &mut impl Write, length: usize) -> io::Result<()> {
    let mut bytes = [0u8; ROOM];
    bytes[0] = JOB;
    bytes[1] = 128;
    bytes[2] = 1;
    fill(&mut bytes[3..], 2, 2046, JOB);
    write!(out, "jobs in {length}")?;
    part(out, &bytes, length)
}

// Stores a byte so many times, from the first on, and each time so many bytes further.
fn fill(bytes: &mut [u8], step: usize, count: usize, byte: u8)
    requires { 0 < step }
{
    for place in bytes.iter_mut().step_by(step).take(count) {
        *place = byte;
    }
}

fn part(out: &mut impl Write, bytes: &[u8], length: usize) -> io::Result<()> {
    show::reading(out, &bytes[..length.min(bytes.len())], Edition::First)
}
