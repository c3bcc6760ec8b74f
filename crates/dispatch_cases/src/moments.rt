// Moments of a program, behind a dispatch of so many steps: a word or the tally is altered, vertices are marked, and there is a dispatch with so
// many words of marks and of the list, and with a budget; then no vertex is marked, and there is another one.
use crate::lent::{ENOUGH, Lent, NOTHING};
use crate::programs::{ASYNC, EMPTY, FORK};
use crate::show::Which;
use cases::changes::{Change, edge, vertex};
use graph::Tally;
use graph::rows::{
    EDGE_WORDS, EXECUTING, FINISHED, IN_COUNT, MADE, NEW, PHASE, PLACE, RELEASED, SOURCE, STATUS,
    TARGET, VERTEX_WORDS,
};
use program::Edition;
use std::io::Write;
use std::{fmt, io};

// What is lent: which vertices are marked, as the sum of 2 to the power of each; the words of marks and of the list; and the budget.
#[derive(Clone, Copy)]
pub(crate) struct Desk {
    pub marked: u32,
    pub marks: usize,
    pub list: usize,
    pub budget: u32,
}

impl fmt::Display for Desk {
    fn fmt<W: fmt::Write>(&self, f: &mut fmt::Formatter<W>) -> fmt::Result {
        write!(f, " marked {} marks {}", self.marked, self.marks)?;
        write!(f, " list {} budget {}: ", self.list, self.budget)
    }
}

// As many vertex rows as the fork needs in the first edition, three words more, and an edge row to spare.
const VERTEX_ROWS: usize = 5;

const EDGE_ROWS: usize = 4;

// The words of marks, and of the list, that are there to be lent.
pub(crate) const MARKS: usize = 7;

pub(crate) const LIST: usize = 16;

// Of the async: vertex 0 executes from step 1 to its stop; its newTd, newEdge and release are steps 2 to 4, its job is step 5. Then it is busy,
// vertex 2 starts and has its job, and a host ends both. Vertex 1 waits for both.
pub(crate) fn all(out: &mut impl Write) -> io::Result<()> {
    endings(out)?;
    stuck(out)?;
    looks(out)?;
    refusals(out)?;
    marks(out)?;
    below_and_above(out)?;
    passed_over(out)?;
    lists(out)?;
    forks(out, Edition::First)?;
    forks(out, Edition::Second)?;
    wide(out, 1023)?;
    wide(out, 1024)?;
    wide(out, 1025)
}

fn endings(out: &mut impl Write) -> io::Result<()> {
    unaltered(out, 4, lends(5, 5, 15, ENOUGH))?;
    unaltered(out, 4, lends(7, 5, 15, ENOUGH))?;
    unaltered(out, 7, lends(5, 5, 15, ENOUGH))?;
    unaltered(out, 0, lends(1, 5, 15, ENOUGH))?;
    unaltered(out, 0, lends(0, 5, 0, ENOUGH))?;
    unaltered(out, 0, lends(0, 5, 2, ENOUGH))?;
    unaltered(out, 5, lends(0, 5, 2, ENOUGH))?;
    unaltered(out, 0, lends(0, 5, 15, 0))?;
    unaltered(out, 4, lends(0, 5, 15, 1))?;
    unaltered(out, 4, lends(0, 5, 3, 1))?;
    unaltered(out, 4, lends(0, 5, 3, 2))?;
    finished(out, lends(0, 5, 15, 0))?;
    finished(out, lends(7, 5, 0, 0))?;
    finished(out, lends(u32::MAX, 7, 2, ENOUGH))
}

// Nothing starts at 2, so that vertex 0 is refused, and vertex 1 waits for it. Behind step 4 vertex 2 can step.
fn stuck(out: &mut impl Write) -> io::Result<()> {
    of_async(out, 1, Some(vertex(0, PLACE, 2)), lends(0, 5, 15, ENOUGH))?;
    of_async(out, 1, Some(vertex(0, PLACE, 2)), lends(3, 5, 0, 0))?;
    of_async(out, 1, Some(vertex(0, STATUS, NEW)), lends(0, 5, 15, 0))?;
    of_async(
        out,
        0,
        Some(vertex(0, IN_COUNT, 1)),
        lends(1, 5, 15, ENOUGH),
    )?;
    of_async(out, 4, Some(vertex(0, PLACE, 2)), lends(4, 5, 15, ENOUGH))?;
    of_async(out, 4, Some(vertex(0, PLACE, 2)), lends(4, 5, 0, 0))?;
    of_async(out, 4, Some(vertex(0, PLACE, 2)), lends(1, 5, 15, ENOUGH))?;
    of_async(out, 7, Some(vertex(2, PLACE, 2)), lends(5, 5, 15, ENOUGH))?;
    of_async(out, 7, Some(vertex(2, PLACE, 2)), lends(4, 5, 15, ENOUGH))?;
    of_async(out, 4, Some(tally(3, 2, 8191)), lends(0, 5, 15, ENOUGH))?;
    of_async(out, 4, Some(tally(3, 2, 8190)), lends(0, 5, 15, ENOUGH))?;
    of_async(out, 4, Some(tally(3, 2, 8191)), lends(5, 5, 0, 0))?;
    of_async(out, 4, Some(tally(3, 2, 8191)), lends(1, 5, 0, 0))
}

// Done or stuck before waiting, waiting before full, full before spent.
fn looks(out: &mut impl Write) -> io::Result<()> {
    unaltered(out, 4, lends(5, 5, 0, ENOUGH))?;
    unaltered(out, 4, lends(5, 5, 15, 0))?;
    unaltered(out, 4, lends(5, 5, 2, 0))?;
    unaltered(out, 4, lends(1, 5, 2, 0))?;
    unaltered(out, 4, lends(4, 5, 0, 0))?;
    unaltered(out, 4, lends(1, 5, 3, 0))?;
    unaltered(out, 4, lends(4, 5, 3, 1))?;
    unaltered(out, 4, lends(1, 5, 3, 2))
}

// 12 before 44, and both before anything else.
fn refusals(out: &mut impl Write) -> io::Result<()> {
    of_async(out, 4, Some(vertex(1, STATUS, 0)), lends(0, 5, 15, ENOUGH))?;
    of_async(
        out,
        4,
        Some(vertex(1, STATUS, FINISHED + 1)),
        lends(7, 4, 15, ENOUGH),
    )?;
    of_async(out, 4, Some(edge(1, SOURCE, 3)), lends(0, 5, 0, 0))?;
    of_async(
        out,
        4,
        Some(edge(0, TARGET, u32::MAX)),
        lends(0, 0, 15, ENOUGH),
    )?;
    of_async(out, 4, Some(tally(3, 2, 8192)), lends(5, 5, 15, ENOUGH))?;
    of_async(out, 4, Some(tally(3, 2, 8192)), lends(5, 4, 15, 0))?;
    of_async(out, 4, Some(tally(6, 2, 4)), lends(0, 7, 15, ENOUGH))?;
    of_async(out, 4, Some(tally(3, 5, 4)), lends(0, 5, 15, ENOUGH))?;
    unaltered(out, 4, lends(0, 4, 15, ENOUGH))?;
    unaltered(out, 4, lends(5, 4, 0, 0))?;
    unaltered(out, 4, lends(0, 0, 15, ENOUGH))?;
    unaltered(out, 4, lends(0, 3, 15, ENOUGH))?;
    unaltered(out, 4, lends(0, 5, 15, ENOUGH))?;
    unaltered(out, 4, lends(0, 6, 15, ENOUGH))?;
    unaltered(out, 4, lends(0, 7, 15, ENOUGH))?;
    finished(out, lends(0, 4, 15, 0))?;
    of_async(out, 1, Some(vertex(0, PLACE, 2)), lends(0, 4, 15, ENOUGH))
}

// Marks of vertices that are new, finished or not made, and of the one that waits for all.
fn marks(out: &mut impl Write) -> io::Result<()> {
    unaltered(out, 2, lends(4, 5, 15, ENOUGH))?;
    unaltered(out, 2, lends(2, 5, 15, ENOUGH))?;
    unaltered(out, 2, lends(6, 5, 15, ENOUGH))?;
    unaltered(out, 0, lends(4, 5, 15, ENOUGH))?;
    unaltered(out, 0, lends(126, 7, 15, ENOUGH))?;
    unaltered(out, 2, lends(120, 7, 15, ENOUGH))?;
    of_async(
        out,
        4,
        Some(vertex(0, STATUS, FINISHED)),
        lends(1, 5, 15, ENOUGH),
    )?;
    of_async(
        out,
        4,
        Some(vertex(0, STATUS, RELEASED)),
        lends(1, 5, 15, ENOUGH),
    )?;
    of_async(
        out,
        4,
        Some(vertex(2, STATUS, EXECUTING)),
        lends(4, 5, 15, ENOUGH),
    )
}

fn below_and_above(out: &mut impl Write) -> io::Result<()> {
    of_async(
        out,
        4,
        Some(vertex(1, IN_COUNT, 0)),
        lends(1, 5, 15, ENOUGH),
    )?;
    of_async(
        out,
        4,
        Some(vertex(1, IN_COUNT, 0)),
        lends(2, 5, 15, ENOUGH),
    )?;
    of_async(
        out,
        4,
        Some(vertex(1, IN_COUNT, 0)),
        lends(4, 5, 15, ENOUGH),
    )?;
    of_async(
        out,
        4,
        Some(vertex(1, IN_COUNT, 0)),
        lends(3, 5, 15, ENOUGH),
    )?;
    of_async(out, 4, Some(vertex(1, IN_COUNT, 0)), lends(5, 5, 15, 1))?;
    of_async(out, 4, Some(vertex(1, IN_COUNT, 0)), lends(7, 5, 0, 0))
}

// Vertex 0 or 2 is at no item, or at none of its commands.
fn passed_over(out: &mut impl Write) -> io::Result<()> {
    of_async(out, 4, Some(vertex(0, PLACE, 2)), lends(0, 5, 15, ENOUGH))?;
    of_async(out, 4, Some(vertex(0, PLACE, u32::MAX)), lends(0, 5, 15, 2))?;
    of_async(out, 4, Some(vertex(0, PHASE, 1)), lends(0, 5, 15, ENOUGH))?;
    of_async(out, 4, Some(vertex(2, PLACE, 2)), lends(0, 5, 15, ENOUGH))?;
    of_async(out, 6, Some(vertex(2, PLACE, 2)), lends(1, 5, 15, ENOUGH))?;
    of_async(out, 6, Some(vertex(2, PLACE, 2)), lends(0, 5, 15, ENOUGH))?;
    of_async(out, 6, Some(vertex(0, PLACE, 2)), lends(0, 5, 15, ENOUGH))?;
    of_async(out, 3, Some(vertex(0, MADE, 1)), lends(0, 5, 15, ENOUGH))
}

fn lists(out: &mut impl Write) -> io::Result<()> {
    unaltered(out, 4, lends(0, 5, 1, ENOUGH))?;
    unaltered(out, 4, lends(0, 5, 4, ENOUGH))?;
    unaltered(out, 4, lends(0, 5, 5, ENOUGH))?;
    unaltered(out, 4, lends(0, 5, 7, ENOUGH))?;
    unaltered(out, 4, lends(0, 5, 16, ENOUGH))
}

// The first edition's fork stops at its eleventh step, the second's yields at its eighth. Then vertices 2 and 3 start, each has its job, and
// neither waits for the other.
fn forks(out: &mut impl Write, edition: Edition) -> io::Result<()> {
    of_fork(out, edition, 7, None, lends(1, 5, 15, ENOUGH))?;
    of_fork(out, edition, 10, None, lends(4, 5, 15, ENOUGH))?;
    of_fork(out, edition, 10, None, lends(8, 5, 15, ENOUGH))?;
    of_fork(out, edition, 15, None, lends(4, 5, 3, 2))?;
    of_fork(out, edition, 15, None, lends(8, 5, 3, 2))?;
    of_fork(
        out,
        edition,
        7,
        Some(vertex(0, PHASE, 9)),
        lends(0, 5, 15, ENOUGH),
    )?;
    of_fork(
        out,
        edition,
        9,
        Some(vertex(0, PHASE, 9)),
        lends(0, 5, 15, ENOUGH),
    )?;
    of_fork(
        out,
        edition,
        11,
        Some(vertex(3, PLACE, 2)),
        lends(0, 5, 15, ENOUGH),
    )?;
    of_fork(
        out,
        edition,
        12,
        Some(vertex(2, PLACE, 2)),
        lends(0, 5, 15, ENOUGH),
    )?;
    of_fork(
        out,
        edition,
        15,
        Some(vertex(3, PLACE, 2)),
        lends(0, 5, 15, ENOUGH),
    )?;
    of_fork(
        out,
        edition,
        3,
        Some(edge(0, TARGET, 2)),
        lends(0, 5, 15, ENOUGH),
    )?;
    of_fork(
        out,
        edition,
        5,
        Some(vertex(3, STATUS, RELEASED)),
        lends(0, 5, 15, ENOUGH),
    )?;
    of_fork(
        out,
        edition,
        5,
        Some(vertex(3, STATUS, RELEASED)),
        lends(1, 5, 15, ENOUGH),
    )
}

fn lends(marked: u32, marks: usize, list: usize, budget: u32) -> Desk {
    Desk {
        marked,
        marks,
        list,
        budget,
    }
}

fn tally(made: u32, held: u32, steps: u32) -> Change {
    Change::Tally(Tally { made, held, steps })
}

fn unaltered(out: &mut impl Write, steps: u32, desk: Desk) -> io::Result<()> {
    of_async(out, steps, None, desk)
}

// Both vertices of the empty program have stopped.
fn finished(out: &mut impl Write, desk: Desk) -> io::Result<()> {
    moment(out, &EMPTY, Edition::Second, 4, None, desk)
}

fn of_async(
    out: &mut impl Write,
    steps: u32,
    change: Option<Change>,
    desk: Desk,
) -> io::Result<()> {
    moment(out, &ASYNC, Edition::First, steps, change, desk)
}

fn of_fork(
    out: &mut impl Write,
    edition: Edition,
    steps: u32,
    change: Option<Change>,
    desk: Desk,
) -> io::Result<()> {
    moment(out, &FORK, edition, steps, change, desk)
}

fn moment(
    out: &mut impl Write,
    program: &[u8],
    edition: Edition,
    steps: u32,
    change: Option<Change>,
    desk: Desk,
) -> io::Result<()> {
    let mut vertices = [0u32; VERTEX_ROWS * VERTEX_WORDS + 3];
    let mut edges = [0u32; EDGE_ROWS * EDGE_WORDS];
    let mut busy = [0u32; MARKS];
    let mut jobs = [9u32; LIST];
    let mut lent = Lent {
        program,
        edition,
        vertices: &mut vertices,
        edges: &mut edges,
        tally: NOTHING,
    };
    lent.begin(steps);
    write!(out, "{} after {steps}", Which(edition))?;
    if let Some(change) = change {
        write!(out, " {change}")?;
        lent.alter(change);
    }
    write!(out, "{desk}")?;
    both(out, &mut lent, &mut busy, &mut jobs, desk)
}

// The dispatch of a moment, and another one, with no vertex marked.
pub(crate) fn both(
    out: &mut impl Write,
    lent: &mut Lent<'_>,
    busy: &mut [u32],
    jobs: &mut [u32],
    desk: Desk,
) -> io::Result<()> {
    mark(busy, desk.marked);
    let n = busy.len().min(desk.marks);
    let m = jobs.len().min(desk.list);
    lent.write_dispatch(out, desk.budget, &mut busy[..n], &mut jobs[..m])?;
    write!(out, "again: ")?;
    mark(busy, 0);
    lent.write_dispatch(out, ENOUGH, busy, jobs)?;
    Ok(())
}

fn mark(busy: &mut [u32], marked: u32) {
    let mut rest = marked;
    for mark in busy {
        *mark = mark_of(rest);
        rest /= 2;
    }
}

// Any number but 0 marks a vertex.
fn mark_of(rest: u32) -> u32 {
    if rest % 2 == 1 {
        u32::MAX - rest / 2
    } else {
        0
    }
}

// Of 1,025 vertex rows 1,024 are used, and need as many words of marks.
fn wide(out: &mut impl Write, marks: usize) -> io::Result<()> {
    let mut vertices = [0u32; 1025 * VERTEX_WORDS];
    let mut edges = [0u32; EDGE_ROWS * EDGE_WORDS];
    let mut busy = [0u32; 1025];
    let mut jobs = [9u32; LIST];
    let desk = lends(0, marks, LIST, ENOUGH);
    write!(out, "1025 rows{desk}")?;
    let mut lent = Lent {
        program: &ASYNC,
        edition: Edition::First,
        vertices: &mut vertices,
        edges: &mut edges,
        tally: NOTHING,
    };
    lent.load();
    both(out, &mut lent, &mut busy, &mut jobs, desk)
}
