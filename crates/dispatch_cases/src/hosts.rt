// Hosts: each has a program dispatched until all is done, and ends jobs before it calls again.
use crate::lent::{ENOUGH, Lent, NOTHING};
use crate::programs;
use crate::show::{JOB_WORDS, Which};
use cases::try_program_line;
use graph::rows::{EDGE_WORDS, VERTEX_WORDS};
use program::Edition;
use std::io;
use std::io::Write;
use walks::DispatchEnding;

// As many rows as the largest of the programs needs.
const VERTEX_ROWS: usize = 11;

const EDGE_ROWS: usize = 7;

// More calls than any host makes.
const CALLS: u32 = 30;

// Which jobs a host ends before its next call: all that run; or the last one that the call handed out, and where it handed out none, that of the
// highest busy vertex.
#[derive(Clone, Copy)]
pub(crate) enum Ends {
    All,
    Last,
}

pub(crate) fn all(out: &mut impl Write) -> io::Result<()> {
    of_program(out, &programs::EMPTY, Edition::First)?;
    of_program(out, &programs::ROW, Edition::Second)?;
    of_program(out, &programs::ASYNC, Edition::First)?;
    of_program(out, &programs::ASYNCS, Edition::Second)?;
    of_program(out, &programs::FORK, Edition::First)?;
    of_program(out, &programs::FORK, Edition::Second)?;
    of_program(out, &programs::TREE, Edition::First)?;
    of_program(out, &programs::TREE, Edition::Second)?;
    of_program(out, &programs::FINISH, Edition::First)?;
    of_program(out, &programs::NESTED, Edition::Second)?;
    of_program(out, &programs::FORCED, Edition::First)?;
    of_program(out, &programs::FUTURES, Edition::Second)
}

// On lists of one row, of two rows and a word more, and of five rows. With a list of one row the last job is the only one.
fn of_program(out: &mut impl Write, program: &[u8], edition: Edition) -> io::Result<()> {
    write!(out, "{} ", Which(edition))?;
    try_program_line(out, program)?;
    host(out, program, edition, &mut [9; JOB_WORDS], Ends::All)?;
    host(
        out,
        program,
        edition,
        &mut [9; 2 * JOB_WORDS + 1],
        Ends::All,
    )?;
    host(
        out,
        program,
        edition,
        &mut [9; 2 * JOB_WORDS + 1],
        Ends::Last,
    )?;
    host(out, program, edition, &mut [9; 5 * JOB_WORDS], Ends::All)?;
    host(out, program, edition, &mut [9; 5 * JOB_WORDS], Ends::Last)
}

fn host(
    out: &mut impl Write,
    program: &[u8],
    edition: Edition,
    jobs: &mut [u32],
    ends: Ends,
) -> io::Result<()> {
    let mut vertices = [0u32; VERTEX_ROWS * VERTEX_WORDS];
    let mut edges = [0u32; EDGE_ROWS * EDGE_WORDS];
    let mut busy = [0u32; VERTEX_ROWS];
    write!(out, "list {} ends {}: ", jobs.len(), ends as u32)?;
    let mut lent = Lent {
        program,
        edition,
        vertices: &mut vertices,
        edges: &mut edges,
        tally: NOTHING,
    };
    lent.load();
    until_done(out, &mut lent, &mut busy, jobs, ends)
}

// Dispatches, and behind each of them jobs end.
pub(crate) fn until_done(
    out: &mut impl Write,
    lent: &mut Lent<'_>,
    busy: &mut [u32],
    jobs: &mut [u32],
    ends: Ends,
) -> io::Result<()> {
    for turn in 0..CALLS {
        let answer = lent.write_dispatch(out, budget(turn), busy, jobs)?;
        end_jobs(busy, jobs, answer.handed, ends);
        if matches!(answer.ending, DispatchEnding::Done) {
            return Ok(());
        }
    }
    writeln!(out, "not done")
}

// Three steps at the second call, and then at every fourth.
fn budget(turn: u32) -> u32 {
    if turn % 4 == 1 { 3 } else { ENOUGH }
}

fn end_jobs(busy: &mut [u32], jobs: &[u32], handed: u32, ends: Ends) {
    match ends {
        Ends::All => busy.fill(0),
        Ends::Last if handed == 0 => end_highest(busy),
        Ends::Last => {
            if let Some(&vertex) = jobs.get(JOB_WORDS * ((handed - 1) as usize)) {
                end_of(busy, vertex);
            }
        }
    }
}

fn end_highest(busy: &mut [u32]) {
    for mark in busy.iter_mut().rev() {
        if *mark != 0 {
            *mark = 0;
            return;
        }
    }
}

fn end_of(busy: &mut [u32], vertex: u32) {
    if let Some(mark) = busy.get_mut(vertex as usize) {
        *mark = 0;
    }
}
