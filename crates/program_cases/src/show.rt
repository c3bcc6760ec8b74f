// Shows what reading answers.
use cases::Refused;
use program::items::item_at;
use program::reading::{edge_rows, read, steps, vertices};
use program::{Edition, ItemCounts, ItemRead};
use std::io::Write;
use std::{fmt, io};

// In either edition, the second's on a line of its own.
pub(crate) fn readings(out: &mut impl Write, program: &[u8]) -> io::Result<()> {
    reading(out, program, Edition::First)?;
    write!(out, "  second edition")?;
    reading(out, program, Edition::Second)
}

// The items and what they need, or a refusal.
pub(crate) fn reading(out: &mut impl Write, program: &[u8], edition: Edition) -> io::Result<()> {
    match read(program, edition) {
        Ok(items) => {
            let vertices = vertices(items, edition);
            let edge_rows = edge_rows(items);
            let steps = steps(items, edition);
            writeln!(
                out,
                "{}, vertices {vertices} edge rows {edge_rows} steps {steps}",
                Items(items)
            )
        }
        Err(refusal) => writeln!(out, ": {}", Refused(refusal)),
    }
}

// How many items of each kind.
#[derive(Clone, Copy)]
struct Items(ItemCounts);

impl fmt::Display for Items {
    fn fmt<W: fmt::Write>(&self, f: &mut fmt::Formatter<W>) -> fmt::Result {
        let ItemCounts {
            futures,
            forces,
            jobs,
            asyncs,
            finishes,
            forks,
        } = self.0;
        write!(f, ": jobs {jobs} asyncs {asyncs} finishes {finishes}")?;
        write!(f, " forks {forks} futures {futures} forces {forces}")
    }
}

// What stands at a place, with the places that it names.
pub(crate) fn item(
    out: &mut impl Write,
    program: &[u8],
    edition: Edition,
    place: u32,
) -> io::Result<()> {
    writeln!(out, "  {place} {}", Found(item_at(program, edition, place)))
}

#[derive(Clone, Copy)]
struct Found(ItemRead);

impl fmt::Display for Found {
    fn fmt<W: fmt::Write>(&self, f: &mut fmt::Formatter<W>) -> fmt::Result {
        match self.0 {
            ItemRead::Job { number, past } => write!(f, "job {number} {}", past.place),
            ItemRead::Async { body, past } => write!(f, "async {body} {}", past.place),
            ItemRead::Finish { body, past } => write!(f, "finish {body} {}", past.place),
            ItemRead::Fork { left, right, past } => {
                write!(f, "fork {left} {right} {}", past.place)
            }
            ItemRead::Future { body, past } => write!(f, "future {body} {}", past.place),
            ItemRead::Force { number, past } => write!(f, "force {number} {}", past.place),
            ItemRead::End { .. } => write!(f, "end"),
            ItemRead::Refused(refusal) => write!(f, "{}", Refused(refusal)),
        }
    }
}
