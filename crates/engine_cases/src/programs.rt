// The programs, each on tables of its own.
use crate::editions::other;
use crate::turns;
use graph::rows::{EDGE_WORDS, EXECUTING, STATUS, VERTEX_WORDS};
use program::Edition;
use program::Edition::{First, Second};
use std::io;
use std::io::Write;

// Each program with the vertex rows and the edge rows lent, how many tables it is tried on, and the edition on the first of them; on the next it
// is the other.
const PROGRAMS: [(&[u8], usize, usize, u64, Edition); 44] = [
    (b"\x00", 40, 20, 1, First),
    (b"\x01\x00\x00", 40, 20, 1, Second),
    (b"\x02\x01\x01\x00\x01\x02\x00", 40, 20, 1, First),
    (
        b"\x04\x01\x01\x00\x01\x02\x00\x01\x03\x00",
        40,
        20,
        2,
        First,
    ),
    (b"\x04\x01\x01\x00\x01\x02\x00\x01\x03\x00", 4, 3, 2, First),
    (b"\x04\x01\x01\x00\x01\x02\x00\x01\x03\x00", 5, 2, 2, First),
    (b"\x04\x01\x01\x00\x01\x02\x00\x01\x03\x00", 3, 3, 1, Second),
    (b"\x03\x02\x01\x05\x00\x00\x01\x06\x00", 40, 20, 1, First),
    (
        b"\x04\x02\x00\x03\x04\x01\x7f\x00\x00\x00\x00\x01\x80\x01\x02\x04\x00\x00\x00\x00",
        40,
        20,
        1,
        First,
    ),
    (
        b"\x04\x02\x00\x03\x04\x01\x7f\x00\x00\x00\x00\x01\x80\x01\x02\x04\x00\x00\x00\x00\x00",
        40,
        20,
        2,
        First,
    ),
    (
        b"\x04\x02\x00\x03\x04\x01\x7f\x00\x00\x00\x00\x01\x80\x01\x02\x04\x00\x00\x00\x00\x00",
        15,
        10,
        1,
        First,
    ),
    (
        b"\x04\x02\x00\x03\x04\x01\x7f\x00\x00\x00\x00\x01\x80\x01\x02\x04\x00\x00\x00\x00\x00",
        12,
        10,
        2,
        First,
    ),
    (
        b"\x04\x02\x00\x03\x04\x01\x7f\x00\x00\x00\x00\x01\x80\x01\x02\x04\x00\x00\x00\x00\x00",
        11,
        10,
        1,
        Second,
    ),
    (
        b"\x04\x02\x00\x03\x04\x01\x7f\x00\x00\x00\x00\x01\x80\x01\x02\x04\x00\x00\x00\x00\x00",
        15,
        9,
        30,
        First,
    ),
    (
        b"\x04\x02\x00\x03\x04\x01\x7f\x00\x00\x00\x00\x01\x80\x01\x02\x04\x00\x00\x00\x00\x00",
        7,
        8,
        30,
        First,
    ),
    (
        b"\x02\x02\x02\x01\x81\x02\x00\x00\x03\x02\x00\x00\x00\x00",
        40,
        20,
        1,
        Second,
    ),
    (b"\x05", 40, 20, 1, First),
    (b"\x06", 40, 20, 1, Second),
    (b"\x07", 40, 20, 1, First),
    (b"\x06\x00", 40, 20, 1, Second),
    (b"\x05\x00\x06\x01\x00", 40, 20, 1, First),
    (b"\x05\x00\x06\x01\x00", 5, 6, 6, First),
    (b"\x05\x00\x06\x00\x00", 40, 20, 1, First),
    (b"\x05\x00\x06\x00\x00", 5, 3, 1, Second),
    (b"\x05\x00\x06\x00\x00", 4, 3, 1, First),
    (b"\x05\x00\x06\x00\x00", 5, 2, 1, Second),
    (b"\x05\x01\x01\x00\x01\x02\x00", 40, 20, 1, First),
    (
        b"\x05\x01\x01\x00\x01\x02\x06\x00\x01\x03\x00",
        40,
        20,
        1,
        Second,
    ),
    (
        b"\x05\x02\x01\x01\x00\x01\x02\x00\x05\x06\x00\x01\x03\x00\x05\x01\x04\x00\x06\x01\x01\x05\x06\x02\x01\x06\x00",
        40,
        20,
        1,
        First,
    ),
    (
        b"\x05\x01\x01\x00\x03\x02\x06\x00\x01\x02\x00\x05\x01\x03\x00\x06\x00\x00\x04\x06\x00\x00\x01\x04\x00\x01\x05\x00",
        15,
        10,
        2,
        First,
    ),
    (
        b"\x04\x02\x01\x01\x00\x04\x01\x02\x00\x01\x03\x00\x00\x03\x02\x01\x04\x00\x00\x01\x05\x00\x05\x01\x06\x00\x04\x06\x00\x01\x07\x00\x05\x00\x06\x00\x06\x01\x00\x01\x08\x00",
        22,
        15,
        1,
        First,
    ),
    (
        b"\x04\x02\x01\x01\x00\x04\x01\x02\x00\x01\x03\x00\x00\x03\x02\x01\x04\x00\x00\x01\x05\x00\x05\x01\x06\x00\x04\x06\x00\x01\x07\x00\x05\x00\x06\x00\x06\x01\x00\x01\x08\x00",
        19,
        15,
        2,
        First,
    ),
    (b"\x03\x00", 40, 20, 1, First),
    (b"", 40, 20, 1, Second),
    (b"\x00\x00", 5, 6, 2, First),
    (b"\x01\x00\x00", 1, 20, 1, First),
    (b"\x01\x00\x00", 2, 0, 1, Second),
    (b"\x02\x04\x00\x03\x00\x00\x00\x00", 6, 7, 30, First),
    (b"\x03\x02\x00\x02\x04\x00\x00\x00\x00\x00", 6, 7, 30, First),
    (b"\x04\x03\x02\x00\x00\x03\x00\x00\x00\x00", 8, 6, 30, First),
    (b"\x01\x02\x03\x00\x04\x00\x00\x00", 5, 8, 30, First),
    (b"\x05\x00\x06\x00\x06\x00\x06\x00\x00", 6, 7, 30, First),
    (b"\x05\x00\x05\x00\x06\x01\x06\x00\x00", 6, 7, 30, First),
    (
        b"\x05\x00\x05\x00\x06\x01\x04\x00\x00\x06\x00\x00",
        9,
        8,
        30,
        First,
    ),
];

pub(crate) fn all(out: &mut impl Write) -> io::Result<()> {
    for (program, vertex_rows, edge_rows, tables, first) in PROGRAMS {
        let mut edition = first;
        for seed in 0..tables {
            one(out, program, vertex_rows, edge_rows, seed, edition)?;
            edition = other(edition);
        }
    }
    Ok(())
}

// Behind the last row some words more are lent.
fn one(
    out: &mut impl Write,
    program: &[u8],
    vertex_rows: usize,
    edge_rows: usize,
    seed: u64,
    edition: Edition,
) -> io::Result<()> {
    let mut vertices = [0u32; 40 * VERTEX_WORDS + 3];
    let mut edges = [0u32; 20 * EDGE_WORDS + 1];
    words(&mut vertices, seed);
    words(&mut edges, seed);
    let n = vertices.len().min(vertex_rows % 256 * VERTEX_WORDS + 3);
    let m = edges.len().min(edge_rows % 256 * EDGE_WORDS + 1);
    turns::run(out, program, &mut vertices[..n], &mut edges[..m], edition)
}

// Words drawn from a seed that also serve as statuses, mostly executing, and as numbers of the first five vertices.
fn words(table: &mut [u32], seed: u64) {
    let mut drawn = seed;
    for (i, place) in table.iter_mut().enumerate() {
        drawn = (drawn % 2147483648 * 1103515245 + 12345) % 2147483648;
        *place = word(drawn / 4096 % 40, i % VERTEX_WORDS == STATUS);
    }
}

fn word(drawn: u64, status: bool) -> u32 {
    if !status {
        return (drawn % 5) as u32;
    }
    if drawn % 2 == 0 {
        EXECUTING
    } else {
        (drawn / 2 % 4 + 1) as u32
    }
}
