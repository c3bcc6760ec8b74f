// Reading programs: the bytes of a program to its items, their counts, and the refusals of its writer.
//
// `reading::read` reads a whole program, `items::item_at` tells what stands at a place of it. Neither asks anything of the bytes.
// `ends::mark_ends` tells of every place at once where its body ends; with these ends `MarkedProgram::item_for_looks` and, for the loop of a walk alone,
// `MarkedProgram::item_by_ends` tell what stands at a place without a search. `mark_ends` and `item_at` need only know whether the program is read, which
// `checks::check` tells in one pass.
#![tactic(auto)]

mod bodies;
mod checks;
pub mod ends;
pub mod format;
pub mod items;
pub mod laws;
pub mod marked;
mod numbers;
pub mod reading;
mod starts;

use refusal::Refusal;

// Whose fork a program's forks are: the slides', which makes a third vertex for what follows, or the article's, which makes none and
// yields. All else, the bytes among it, is the same in both.
#[derive(Clone, Copy, Debug, PartialEq, Eq)]
pub enum Edition {
    First,
    Second,
}

// How many items of each kind. A program has fewer bytes than 16 bits can count; so narrow, and in this order, with the counts that rise most
// often in a word of their own, they cost a reader little to carry along (docs/COST.md).
#[derive(Clone, Copy, Debug, Default, PartialEq, Eq)]
pub struct ItemCounts {
    pub futures: u16,
    pub forces: u16,
    pub jobs: u16,
    pub asyncs: u16,
    pub finishes: u16,
    pub forks: u16,
}

// Where a reader is in the program, and the items that it has seen.
#[derive(Clone, Copy, Debug, PartialEq, Eq)]
pub struct Reader {
    pub place: u32,
    pub seen: ItemCounts,
}

// What a reader carries along into a body, and from item to item: the level of that body, and how many futures are open.
#[derive(Clone, Copy)]
pub struct Inside {
    pub level: u32,
    pub opened: u32,
}

// What stands at a place, with the places where its bodies start, and a reader moved past it; or a refusal, which stays among the cases since
// this is what a step is answered from, in the loop of a walk.
#[derive(Clone, Copy, Debug, PartialEq, Eq)]
pub enum ItemRead {
    Job { number: u32, past: Reader },
    Async { body: u32, past: Reader },
    Finish { body: u32, past: Reader },
    Fork { left: u32, right: u32, past: Reader },
    Future { body: u32, past: Reader },
    Force { number: u32, past: Reader },
    End { past: Reader },
    Refused(Refusal),
}
