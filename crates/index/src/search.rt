// Whether a path of the index's rows leads from one vertex to another. Most often a look at the rows into the one to be reached tells, since
// nothing leads into their sources; else the path search of `graph` decides, over the index as it stands. That one takes two words of stack
// for each usable row, 8 KiB.
ghost use Rattle.std.specs.Prelude.{◌≡◌, ◌<◌};
ghost use Rattle.graph.specs.Tables.{usable_limit};
ghost use Rattle.graph.specs.Paths.{reaches};
ghost use Rattle.index.specs.Layout.{Indexed};

use crate::layout::{BEFORE_IN, LAST_IN};
use graph::paths::{SEARCH_LIMIT, search_back};
use graph::rows::{EDGE_WORDS, SOURCE};

// The full search, whose arrays the short way does without.
fn search(index: &[u32], used: usize, from: u32, to: u32) -> bool
    requires indexed { Indexed index.now used }
    requires from_lt_usable_limit { (from < usable_limit) × (to < usable_limit) }
    ensures { result ≡ reaches index.now used from to }
{
    let mut distances = [0; SEARCH_LIMIT];
    let mut queue = [0; SEARCH_LIMIT];
    search_back(
        index,
        &index[LAST_IN..BEFORE_IN],
        &index[BEFORE_IN..BEFORE_IN + used],
        from,
        to,
        &mut distances,
        &mut queue,
    )
}

// A path of one or more of the first `used` rows leads from `from` to `to`. The rows into `to` are followed: one out of `from` is such a path,
// and one whose source nothing leads into ends no other; at the first whose source has a row in, the full search decides.
pub fn reaches(index: &[u32], used: usize, from: u32, to: u32) -> bool
    requires indexed { Indexed index.now used }
    requires from_lt_usable_limit { (from < usable_limit) × (to < usable_limit) }
    ensures { result ≡ reaches index.now used from to }
{
    let mut left = index[LAST_IN + to as usize];
    while left != 0 {
        let i = (left - 1) as usize;
        let source = index[EDGE_WORDS * i + SOURCE];
        if source == from {
            return true;
        }
        if index[LAST_IN + source as usize] != 0 {
            return search(index, used, from, to);
        }
        left = index[BEFORE_IN + i];
    }
    false
}
