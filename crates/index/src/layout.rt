// The words of the index: rows of source and target, as an edge table has them, and behind them four lists of row numbers. Rows are counted
// from 1 in these, so that 0 is none.
use graph::rows::{EDGE_WORDS, USABLE_LIMIT};

pub const ROW_LIMIT: usize = 2 * USABLE_LIMIT;

// The source of a dropped row: the vertex behind the last usable one. A number, since it stands among the index's words.
pub const NOWHERE: u32 = 1024;

// For each vertex, `NOWHERE` too, its last row in.
pub const LAST_IN: usize = EDGE_WORDS * ROW_LIMIT;

// For each row the one before it into the same vertex.
pub const BEFORE_IN: usize = LAST_IN + USABLE_LIMIT + 1;

// For each vertex its last row out.
pub const LAST_OUT: usize = BEFORE_IN + ROW_LIMIT;

// For each row the one before it out of the same vertex.
pub const BEFORE_OUT: usize = LAST_OUT + USABLE_LIMIT + 1;

pub const INDEX_WORDS: usize = BEFORE_OUT + ROW_LIMIT;
