// The refusals: the reasons with their numbers, by who causes them, and what is answered with one. specs/Refusals.antt is the same list for
// the definitions, with what each means.

#![tactic(auto)]

ghost use Rattle.std.specs.Prelude.{◌≡◌, Some};
ghost use Rattle.refusal.specs.Reasons.{number, at_no_place};
ghost use Rattle.refusal.specs.Words.{reason_words};

use std::error::Error;
use std::fmt;

// Why something is refused.
#[derive(Clone, Copy, Debug, PartialEq, Eq)]
pub enum Reason {
    // The program's writer.
    LengthOutside = 1,
    NumberMalformed = 2,
    ByteUnknown = 3,
    LevelTooDeep = 4,
    BytesRunOut = 5,
    BytesAfterEnd = 6,
    JobTooLarge = 7,
    TooManyVertices = 8,
    NoSuchFuture = 43,
    // The lender.
    TooFewVertexRows = 10,
    TooFewEdgeRows = 11,
    UnsoundTables = 12,
    NothingStarts = 13,
    // The host, choosing.
    NoSuchVertex = 20,
    EdgeLeadsIn = 21,
    VertexIsNew = 22,
    VertexIsFinished = 23,
    VertexIsExecuting = 39,
    // The caller of single commands.
    CallerNotExecuting = 30,
    NoVertexRow = 31,
    NoEdgeRow = 32,
    TargetNotWaiting = 33,
    ClosesCycle = 35,
    ReleaseNotNew = 36,
    TransferNotNew = 37,
    TransferHasEdgeOut = 38,
    // Whoever asks for a chain.
    NoChain = 41,
    ListTooShort = 42,
    // A host that has jobs handed out.
    BusyTableTooShort = 44,
    // A host that asks for a command or an edition by number.
    NoSuchEdition = 98,
    NoSuchCommand = 99,
}

impl Reason {
    // The number that hosts know it by.
    pub fn number(self) -> u32
        ensures { result ≡ number self }
    {
        self as u32
    }
}

impl fmt::Display for Reason {
    ghost output = { λ r. Some (reason_words r) };

    fn fmt<W: fmt::Write>(&self, f: &mut fmt::Formatter<W>) -> fmt::Result {
        f.write_str(match self {
            Reason::LengthOutside => "the program has no bytes or more than 4,096",
            Reason::NumberMalformed =>
                "a number is longer than five bytes or not in its shortest form",
            Reason::ByteUnknown => "an item's first byte is above 6",
            Reason::LevelTooDeep => "a body is at level 33",
            Reason::BytesRunOut => "the bytes run out",
            Reason::BytesAfterEnd => "bytes come after the end",
            Reason::JobTooLarge => "a number is above 4,294,967,295",
            Reason::TooManyVertices => "the program makes more than 1,024 vertices",
            Reason::NoSuchFuture => "no such future is open",
            Reason::TooFewVertexRows => "too few vertex rows are lent",
            Reason::TooFewEdgeRows => "too few edge rows are lent",
            Reason::UnsoundTables =>
                "tally and tables don't fit together, or 8,192 steps were taken",
            Reason::NothingStarts =>
                "no item can be read at the vertex's place, its phase is past the item, or its words lead to no future",
            Reason::NoSuchVertex => "there is no such vertex",
            Reason::EdgeLeadsIn => "something must finish before this vertex starts",
            Reason::VertexIsNew => "the vertex is not released yet",
            Reason::VertexIsFinished => "the vertex is finished",
            Reason::VertexIsExecuting => "the vertex executes already",
            Reason::CallerNotExecuting => "the caller is not executing",
            Reason::NoVertexRow => "no vertex row is left",
            Reason::NoEdgeRow => "no edge row is left",
            Reason::TargetNotWaiting => "the edge's target executes or is finished",
            Reason::ClosesCycle => "this would close a cycle",
            Reason::ReleaseNotNew => "only a new vertex is released",
            Reason::TransferNotNew => "edges are handed to a new vertex only",
            Reason::TransferHasEdgeOut => "the vertex that would get the edges has one already",
            Reason::NoChain => "no chain of held edges leads from the target back to the source",
            Reason::ListTooShort => "the chain has more vertices than the list has words",
            Reason::BusyTableTooShort =>
                "the table of marks has fewer words than the vertex table has rows",
            Reason::NoSuchEdition => "no edition has this number",
            Reason::NoSuchCommand => "no command has this number",
        })
    }
}

impl Error for Reason {}

// A reason, and its place: an offset in the program for the numbers 2 to 7 and 43, else 0.
#[derive(Clone, Copy, Debug, PartialEq, Eq)]
pub struct Refusal {
    pub reason: Reason,
    pub place: u32,
}

impl From<Reason> for Refusal {
    ghost from_gives = { at_no_place };

    fn from(reason: Reason) -> Refusal {
        Refusal { reason, place: 0 }
    }
}
