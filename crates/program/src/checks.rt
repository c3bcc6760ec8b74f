// Whether loading reads a program, in one pass over its bytes, with a stack of the items whose bodies are open.
ghost use Rattle.std.specs.Prelude.{◌≡◌, true, cond, suc, ◌+◌, ◌^◌, ◌<◌, ◌≤◌, eqb, length, drop, set, replicate};
ghost use Rattle.program.specs.Limits.{program_bytes, job_limit};
ghost use Rattle.program.specs.Bytes.{job_byte, future_byte};
ghost use Rattle.program.specs.Reader.{number, reading};
ghost use Rattle.program.specs.Internal.Progress.{is_read, Outside, ShortJob, past_number};

use crate::format::{
    ASYNC, END, FORCE, FORK, FUTURE, JOB, JOB_LIMIT, LEVEL_LIMIT, PROGRAM_BYTES, TOP_BIT,
    VERTEX_LIMIT,
};
use crate::reading::fork_vertices;
use crate::starts::opens_number;
use crate::{Edition, Reader};

// Whether loading reads a program, and a mark of 1 at each place where an item or an end byte starts, as far as there are marks. `depth` items
// are open around each place. By depth, `openers` has the first byte of such an item, where a fork's turns into an async's at its second body,
// and `behind` how many futures are open behind it.
pub(crate) fn check(program: &[u8], edition: Edition, marks: &mut [u16]) -> bool
    requires { marks.old ≡ replicate (length marks.old) 0 }
    ensures { (result ≡ is_read (reading edition program.now)) × (length marks.new ≡ length marks.old) × (result ≡ true → Outside program.now marks.new) }
{
    if program.is_empty() || PROGRAM_BYTES < program.len() {
        return false;
    }
    let vertices = [0, 0, 1, 2, fork_vertices(1, edition), 2, 1];
    // Two arrays and a depth: the library has no stack of fixed size, and a pair takes eight bytes for five.
    let mut openers = [0u8; LEVEL_LIMIT as usize];
    let mut behind = [0u32; LEVEL_LIMIT as usize];
    let mut depth: usize = 0;
    let mut opened: u32 = 0;
    let mut made: u64 = 2;
    let mut place: usize = 0;
    // No `for`: each turn goes on behind what it read, a byte or a number.
    while place < program.len() {
        mark_place(marks, place);
        let first = program[place];
        if first == END {
            if depth == 0 {
                return (place + 1 == program.len()) & (made <= VERTEX_LIMIT);
            }
            place += 1;
            if openers[depth - 1] == FORK {
                openers[depth - 1] = ASYNC;
                opened = behind[depth - 1];
            } else {
                depth -= 1;
                opened = behind[depth];
            }
        } else if is_short_job(program, place) {
            place += 2;
        } else {
            if FORCE < first {
                return false;
            }
            made += vertices[first as usize];
            if opens_number(first) {
                let Some(past) = past_number(program, place + 1, number_bound(first, opened)) else {
                    return false;
                };
                place = past;
            } else {
                if LEVEL_LIMIT as usize <= depth + 1 {
                    return false;
                }
                place += 1;
                openers[depth] = first;
                behind[depth] = opened_behind(first, opened);
                depth += 1;
            }
        }
    }
    false
}

// Marks a place with 1, if there is a mark for it.
fn mark_place(marks: &mut [u16], place: usize)
    ensures { marks.new ≡ set marks.old place 1 }
{
    if place < marks.len() {
        marks[place] = 1;
    }
}

// A job with a number of one byte stands at a place of the program: what most jobs are.
fn is_short_job(program: &[u8], place: usize) -> bool
    requires { (place < length program.now) × (length program.now ≤ program_bytes) }
    ensures { result ≡ true → ShortJob program.now place }
{
    // Tried as one row of `&&`: the compiler then takes all tests at each byte, and a step of 511 asyncs takes 2,860 nanoseconds for 2,180.
    if program[place] != JOB || program.len() <= place + 1 {
        return false;
    }
    program[place + 1] < TOP_BIT
}

// What a number has to be below behind this first byte: a job's is within the limit, a force's names one of the open futures.
fn number_bound(first: u8, opened: u32) -> u64
    ensures { result ≡ cond (eqb first job_byte) (suc job_limit) opened }
{
    if first == JOB {
        JOB_LIMIT + 1
    } else {
        opened as u64
    }
}

// How many futures are open behind an item with this first byte that holds bodies, where so many are before it.
fn opened_behind(first: u8, opened: u32) -> u32
    requires { opened + 1 < 2 ^ 32 }
    ensures { result ≡ cond (eqb first future_byte) (suc opened) opened }
{
    if first == FUTURE { opened + 1 } else { opened }
}

// The place behind the number at a place of the program, if it is read and below the bound.
#[tactic(auto, using(crate::proofs::CheckLaws::short_over, crate::proofs::CheckLaws::short_below))]
fn past_number(program: &[u8], from: usize, bound: u64) -> Option<usize>
    requires { (from ≤ length program.now) × (length program.now ≤ program_bytes) }
    ensures { result ≡ past_number (length program.now) bound (number (drop from program.now)) }
{
    if program.len() <= from || TOP_BIT <= program[from] {
        return past_long_number(program, from, bound);
    }
    if bound <= program[from] as u64 {
        return None;
    }
    Some(from + 1)
}

// The same of a number that may have several bytes.
fn past_long_number(program: &[u8], from: usize, bound: u64) -> Option<usize>
    requires { (from ≤ length program.now) × (length program.now ≤ program_bytes) }
    ensures { result ≡ past_number (length program.now) bound (number (drop from program.now)) }
{
    match Reader::at(from as u32).number(&program[from..]) {
        Ok((value, past)) if (value as u64) < bound => Some(past.place as usize),
        _ => None,
    }
}
