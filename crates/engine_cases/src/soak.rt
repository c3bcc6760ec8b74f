// Drawn programs of a drawn edition, each stepped in several orders until it has taken all its steps, and in one in which some steps are the
// other edition's. The order of its jobs is written down, each as its
// offset and number, and after how many accepted steps, or runs, the word of each vertex was the number of edges into it.
ghost use Rattle.std.specs.Prelude.{◌+◌, ◌-◌, ◌*◌, ◌<◌, ◌≤◌, length};

use crate::counts::are_true;
use crate::editions::other;
use crate::lent::{Lent, NOTHING};
use crate::show::Which;
use cases::try_program_line;
use engine::Answer;
use graph::rows::{EDGE_WORDS, VERTEX_WORDS};
use program::Edition;
use program::format::{ASYNC, END, FINISH, FORCE, FORK, FUTURE, JOB};
use program::reading::{read, steps};
use std::io;
use std::io::Write;

pub(crate) fn all(out: &mut impl Write) -> io::Result<()> {
    for seed in 0..30u64 {
        one(out, seed * 7919 + 11)?;
    }
    Ok(())
}

fn one(out: &mut impl Write, seed: u64) -> io::Result<()> {
    let mut program = [0u8; 160];
    let n = draw(&mut program, seed);
    in_each_order(out, &program[..n], seed)
}

// Steps of the lowest vertex that can step; of all that are made and the two next numbers each in turn, from below or from above, or any;
// the same where the other edition's steps are among them; and runs.
#[derive(Clone, Copy, PartialEq, Eq)]
enum Order {
    Lowest,
    FromBelow,
    FromAbove,
    Any,
    Mixed,
    Runs,
}

const ORDERS: [Order; 6] = [
    Order::Lowest,
    Order::FromBelow,
    Order::FromAbove,
    Order::Any,
    Order::Mixed,
    Order::Runs,
];

fn in_each_order(out: &mut impl Write, program: &[u8], seed: u64) -> io::Result<()> {
    let edition = if random(seed) / 1048576 % 2 == 1 {
        Edition::First
    } else {
        Edition::Second
    };
    write!(out, "{} ", Which(edition))?;
    try_program_line(out, program)?;
    let needed = match read(program, edition) {
        Ok(items) => steps(items, edition),
        Err(_) => 0,
    };
    for order in ORDERS {
        in_order(out, program, edition, seed, order, needed)?;
    }
    Ok(())
}

fn random(drawn: u64) -> u64 {
    (drawn % 2147483648 * 1103515245 + 12345) % 2147483648
}

// Draws a program of at most as many bytes as are lent, and answers how many it has. `open` bodies are not closed yet, and each needs a
// byte for its end; `futures` has for each of them how many futures are open in it.
fn draw(program: &mut [u8], seed: u64) -> usize
    ensures { result ≤ length program.new }
{
    if program.len() == 0 {
        return 0;
    }
    let mut drawn = seed;
    let mut open: usize = 1;
    let mut at: usize = 0;
    let mut futures = [0u32; 16];
    while 0 < open {
        drawn = random(drawn);
        let here = in_last(&futures, open);
        let kind = kind(drawn / 4096, open, program.len() - at - open, here);
        if kind == END {
            program[at] = END;
            at += 1;
            open -= 1;
        } else if kind < ASYNC {
            at = numbered(program, at, JOB, drawn_number(drawn));
        } else if kind < FORCE {
            opened(&mut futures, open, kind, here);
            program[at] = kind;
            at += 1;
            open += bodies(kind);
        } else {
            at = numbered(program, at, FORCE, one_of(drawn / 65536, here));
        }
    }
    at
}

// How many futures are open in the last body.
fn in_last(futures: &[u32; 16], open: usize) -> u32 {
    if open == 0 || 16 < open {
        return 0;
    }
    futures[open - 1]
}

// In the bodies of an item, of which a fork has two, those futures are open that are open at it; behind a future it is open, too.
fn opened(futures: &mut [u32; 16], open: usize, kind: u8, here: u32) {
    if open == 0 || 14 < open {
        return;
    }
    if kind == FUTURE {
        futures[open - 1] = here % 256 + 1;
    }
    futures[open] = here;
    futures[open + 1] = here;
}

// The kind of the next item, or an end, and an end where there is room for less than 6 bytes. A force has a future that is open.
fn kind(drawn: u64, open: usize, room: usize, futures: u32) -> u8
    ensures { 6 ≤ room + 6 * (1 - result) }
{
    if room < 6 {
        return END;
    }
    match drawn % 20 {
        0..=5 => closing(open, room),
        6..=9 => JOB,
        10..=16 if 12 < open => JOB,
        10 | 11 => ASYNC,
        12 => FINISH,
        13 | 14 => FORK,
        15 | 16 => FUTURE,
        _ if futures == 0 => JOB,
        _ => FORCE,
    }
}

// How many bodies an item of this kind has that has one.
fn bodies(kind: u8) -> usize
    ensures { result ≤ 2 }
{
    if kind == FORK { 2 } else { 1 }
}

// The main body goes on while there is much room.
fn closing(open: usize, room: usize) -> u8 {
    if 1 < open || room < 40 { END } else { FINISH }
}

// A number below `count`, or 0.
fn one_of(drawn: u64, count: u32) -> u32 {
    if count == 0 {
        return 0;
    }
    below(drawn, count)
}

// A number of at most so many bytes as are drawn, one to five; once in eight times it is the greatest of them.
fn drawn_number(drawn: u64) -> u32 {
    let number = if drawn / 524288 % 8 == 0 {
        4294967295
    } else {
        drawn % 2147483648 * 48271
    };
    match drawn / 65536 % 5 {
        0 => (number % 128) as u32,
        1 => (number % 16384) as u32,
        2 => (number % 2097152) as u32,
        3 => (number % 268435456) as u32,
        _ => (number % 4294967296) as u32,
    }
}

// An item with this number, and where it ends.
fn numbered(program: &mut [u8], at: usize, first: u8, number: u32) -> usize
    requires { at + 6 ≤ length program.old }
    ensures { (at < result) × (result ≤ at + 6) }
{
    let end = groups(program, at + 1, number);
    program[at] = first;
    end
}

// A number in its shortest form, and where it ends.
fn groups(program: &mut [u8], at: usize, number: u32) -> usize
    requires { at + 5 ≤ length program.old }
    ensures { (at < result) × (result ≤ at + 5) }
{
    let mut left = number;
    // By number, since where it ends is the answer.
    for i in 0..5 {
        if left < 128 {
            program[at + i] = left as u8;
            return at + i + 1;
        }
        program[at + i] = (128 + left % 128) as u8;
        left = left / 128;
    }
    at + 5
}

fn in_order(
    out: &mut impl Write,
    program: &[u8],
    edition: Edition,
    seed: u64,
    order: Order,
    needed: u64,
) -> io::Result<()> {
    let mut vertices = [0u32; 300 * VERTEX_WORDS];
    let mut edges = [0u32; 300 * EDGE_WORDS];
    let mut lent = Lent {
        program,
        edition,
        vertices: &mut vertices,
        edges: &mut edges,
        tally: NOTHING,
    };
    let _ = lent.load();
    write!(out, "order {}", order as u32)?;
    if order == Order::Runs {
        runs(out, &mut lent, needed)
    } else {
        turns(out, &mut lent, order, seed, needed)
    }
}

// Steps of vertices named in an order, until it is over. A refused step is not counted: what it spoiled would show after the next one.
fn turns(
    out: &mut impl Write,
    lent: &mut Lent<'_>,
    order: Order,
    seed: u64,
    needed: u64,
) -> io::Result<()> {
    let mut drawn = seed;
    let mut refused: u32 = 0;
    let mut counted: u32 = 0;
    write!(out, " jobs")?;
    for turn in 0..30000u32 {
        if is_over(order, turn, lent.tally.steps as u64, needed) {
            break;
        }
        drawn = random(drawn);
        let vertex = named(lent, order, turn, drawn / 4096);
        let edition = of_turn(lent.edition, order, drawn / 65536);
        let answer = lent.step(vertex, edition);
        if let Answer::Job { number, offset } = answer {
            write!(out, " {offset}:{number}")?;
        }
        if answer.is_refused() {
            refused = refused.saturating_add(1);
        } else if are_true(lent) {
            counted = counted.saturating_add(1);
        }
    }
    write!(out, " refused {refused} counted {counted}")?;
    lent.left(out)
}

// All steps are taken; where editions mix, nobody promises how many these are.
fn is_over(order: Order, turn: u32, taken: u64, needed: u64) -> bool {
    if order == Order::Mixed {
        return turn == 600;
    }
    taken == needed
}

// One step in eight is the other edition's, where editions mix.
fn of_turn(edition: Edition, order: Order, drawn: u64) -> Edition {
    if order == Order::Mixed && drawn % 8 == 0 {
        other(edition)
    } else {
        edition
    }
}

// The vertex of a turn.
fn named(lent: &Lent<'_>, order: Order, turn: u32, drawn: u64) -> u32 {
    let numbers = lent.tally.made % 4096 + 2;
    match order {
        Order::Lowest => match lent.lowest() {
            Ok(Some(vertex)) => vertex,
            Ok(None) => 4294967295,
            Err(_) => 4294967294,
        },
        Order::FromBelow => below(turn as u64, numbers),
        Order::FromAbove => numbers - 1 - below(turn as u64, numbers),
        Order::Any | Order::Mixed | Order::Runs => below(drawn, numbers),
    }
}

fn below(drawn: u64, numbers: u32) -> u32
    requires { 0 < numbers }
    ensures { result < numbers }
{
    (drawn % (numbers as u64)) as u32
}

// Runs with budgets from 0 to 16.
fn runs(out: &mut impl Write, lent: &mut Lent<'_>, needed: u64) -> io::Result<()> {
    let mut counted: u32 = 0;
    writeln!(out, " runs")?;
    for turn in 0..300u32 {
        if (lent.tally.steps as u64) == needed {
            break;
        }
        lent.write_run(out, turn * 5 % 17)?;
        if are_true(lent) {
            counted = counted.saturating_add(1);
        }
    }
    writeln!(out, "counted {counted}")
}
