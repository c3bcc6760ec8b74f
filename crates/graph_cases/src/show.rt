// Shows what a call answered and left.
use cases::{Left, Refused};
use graph::{Answer, Done, OpenDone};
use std::io::Write;
use std::{fmt, io};

// What a command answered.
#[derive(Clone, Copy)]
struct Said(Answer);

impl fmt::Display for Said {
    fn fmt<W: fmt::Write>(&self, f: &mut fmt::Formatter<W>) -> fmt::Result {
        match self.0 {
            Answer::Start => write!(f, "start"),
            Answer::New(v) => write!(f, "new {v}"),
            Answer::Edge(a, b) => write!(f, "edge {a} {b}"),
            Answer::Release(v) => write!(f, "release {v}"),
            Answer::Transfer(v) => write!(f, "transfer {v}"),
            Answer::Stop => write!(f, "stop"),
            Answer::Yield => write!(f, "yield"),
            Answer::Refused(refusal) => write!(f, "{}", Refused(refusal)),
        }
    }
}

pub(crate) fn opened(
    out: &mut impl Write,
    done: OpenDone,
    vertices: &[u32],
    edges: &[u32],
) -> io::Result<()> {
    let OpenDone { answer, tally } = done;
    let left = Left {
        tally,
        vertices,
        edges,
    };
    match answer {
        Ok(()) => writeln!(out, "opened{left}"),
        Err(refusal) => writeln!(out, "{}{left}", Refused(refusal)),
    }
}

pub(crate) fn done(
    out: &mut impl Write,
    done: Done,
    vertices: &[u32],
    edges: &[u32],
) -> io::Result<()> {
    let Done { answer, tally } = done;
    let left = Left {
        tally,
        vertices,
        edges,
    };
    writeln!(out, "{}{left}", Said(answer))
}
