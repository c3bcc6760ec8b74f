// An order of an index's rows in which one pass over them spreads all that can be spread, on cyclic graphs too. A depth-first search along the rows
// lists the vertices as they finish. A second one, against the rows, with roots from the last finished to the first, finds the strongly connected
// components, from the sources of the graph on. Then, from the last finished vertex to the first: at a component's root come the rows by which its other
// vertices were found, from the last to the first, which gathers all labels of the component at the root; and at each vertex the rows out of it.
// That takes 20 KiB of stack. No proof rests on this order: it decides only how much a pass finds.
ghost use Rattle.std.specs.Prelude.{◌≡◌, ℕ, ◌<◌, ◌≤◌, length, get_or};
ghost use Rattle.graph.specs.Tables.{usable_limit, target_word};
ghost use Rattle.index.specs.Layout.{index_words, last_out_base, before_out_base, Indexed};
ghost use Rattle.reachability.specs.Pairs.{order_words};
ghost use Rattle.reachability.specs.Order.{Ordered};

use graph::rows::{EDGE_WORDS, SOURCE, TARGET, USABLE_LIMIT};
use index::layout::{BEFORE_IN, BEFORE_OUT, LAST_IN, LAST_OUT, NOWHERE, ROW_LIMIT};

// Each row once, and again those by which the second search found a vertex.
pub const ORDER_WORDS: usize = 3 * USABLE_LIMIT;

// The largest number of a row, counted from 1. That 0 is none stays: it is the index's layout.
const LAST_ROW: u32 = 2048;

// No search takes more steps: each follows a row or finishes a vertex.
const STEPS: usize = ROW_LIMIT + USABLE_LIMIT;

// In place of the next row of a vertex that was not found yet. An `Option` there, or an enum for a root or a row below, takes eight bytes for four, and
// the lists lie on the stack (README.md has its size).
const UNSEEN: u32 = 4294967295;

// A root, with its vertex in the lower bits, stands where other vertices have the row by which they were found.
const ROOT: u32 = 4096;

// Along the rows or against them: where the last row of each vertex stands, where the row before each, and which end of a row leads on.
#[derive(Clone, Copy)]
struct Way {
    last: usize,
    before: usize,
    end: usize,
    ghost lasts: { last ≤ last_out_base },
    ghost befores: { before ≤ before_out_base },
    ghost ends: { end ≤ target_word },
}

impl Way {
    const ALONG: Self = Self {
        last: LAST_OUT,
        before: BEFORE_OUT,
        end: TARGET,
    };

    const AGAINST: Self = Self {
        last: LAST_IN,
        before: BEFORE_IN,
        end: SOURCE,
    };
}

// A list with room for each vertex once.
#[derive(Drop)]
struct List {
    words: [u32; USABLE_LIMIT],
    count: usize,
    ghost few: { count ≤ usable_limit },
}

impl List {
    fn new() -> Self {
        List {
            words: [0; USABLE_LIMIT],
            count: 0,
        }
    }

    fn clear(&mut self) {
        self.count = 0;
    }

    fn push(&mut self, word: u32) {
        if self.count < USABLE_LIMIT {
            self.words[self.count] = word;
            self.count += 1;
        }
    }

    fn last(&self) -> Option<u32> {
        match self.count {
            0 => None,
            count => Some(self.words[count - 1]),
        }
    }

    fn pop(&mut self) {
        self.count = self.count.saturating_sub(1);
    }

    fn listed(&self) -> &[u32] {
        &self.words[..self.count]
    }
}

// A depth-first search: the row that each vertex follows next, the vertices that are under way, how each vertex was found, in the order of finding, and
// the vertices as they finish.
#[derive(Drop)]
struct Search<'a> {
    index: &'a [u32],
    way: Way,
    next: [u32; USABLE_LIMIT],
    stack: List,
    found: &'a mut List,
    finished: &'a mut List,
    ghost long: { length index.now ≡ index_words },
}

impl<'a> Search<'a> {
    // Puts a vertex on the stack to which `row` leads, unless it was found before.
    fn discover(&mut self, vertex: u32, row: u32) {
        if NOWHERE <= vertex || self.next[vertex as usize] != UNSEEN {
            return;
        }
        self.next[vertex as usize] = self.index[self.way.last + vertex as usize];
        self.stack.push(vertex);
        self.found.push(row);
    }

    // Follows the next row of the vertex on top of the stack, or finishes it where there is none.
    fn step(&mut self, vertex: u32) {
        if NOWHERE <= vertex {
            return;
        }
        let row = self.next[vertex as usize];
        if row == 0 {
            self.stack.pop();
            self.finished.push(vertex);
        } else if row <= LAST_ROW {
            let i = (row - 1) as usize;
            self.next[vertex as usize] = self.index[self.way.before + i];
            let onward = self.index[EDGE_WORDS * i + self.way.end];
            self.discover(onward, row);
        }
    }

    // Searches from `root` to the end.
    fn explore(&mut self, root: u32) {
        self.discover(root, ROOT | root);
        for _ in 0..STEPS {
            let Some(vertex) = self.stack.last() else {
                return;
            };
            self.step(vertex);
        }
    }
}

// A depth-first search from each of the roots, from the last to the first. It lists how each vertex was found, in the order of finding, and the vertices
// as they finish.
fn search_all(index: &[u32], way: Way, roots: &[u32], found: &mut List, finished: &mut List)
    requires { length index.now ≡ index_words }
{
    let mut search = Search {
        index,
        way,
        next: [UNSEEN; USABLE_LIMIT],
        stack: List::new(),
        found,
        finished,
    };
    for &root in roots.iter().rev() {
        search.explore(root);
    }
}

// The order in the making.
#[derive(Drop)]
struct Order<'a> {
    rows: &'a mut [u32],
    used: usize,
    count: usize,
    ghost ordered: { Ordered used rows.now count },
}

impl<'a> Order<'a> {
    ghost use Rattle.reachability.specs.Making.{GoesOn};

    // Appends a row, which is counted from 1, if it is used and there is room.
    fn put(&mut self, row: u32)
        ensures { GoesOn self.old self.new }
    {
        if row == 0 || self.used < row as usize || self.rows.len() <= self.count {
            return;
        }
        self.rows[self.count] = row - 1;
        self.count += 1;
    }

    // Where a component begins of which `vertex` is the root, appends the rows by which its other vertices were found, from the last to the first, and leaves
    // the components behind it.
    fn gather<'f>(&mut self, vertex: u32, found: &'f [u32]) -> &'f [u32]
        ensures { GoesOn self.old self.new }
    {
        let [root, others @ ..] = found else {
            return found;
        };
        if *root != ROOT | vertex {
            return found;
        }
        let end = others
            .iter()
            .position(|&row| ROOT <= row)
            .unwrap_or(others.len());
        for &row in others[..end].iter().rev() {
            self.put(row);
        }
        &others[end..]
    }

    // Appends the rows out of `vertex`.
    fn put_rows_out(&mut self, index: &[u32], vertex: u32)
        requires { length index.now ≡ index_words }
        ensures { GoesOn self.old self.new }
    {
        if NOWHERE <= vertex {
            return;
        }
        let mut row = index[LAST_OUT + vertex as usize];
        for _ in 0..ROW_LIMIT {
            if row == 0 || LAST_ROW < row {
                return;
            }
            self.put(row);
            row = index[BEFORE_OUT + (row - 1) as usize];
        }
    }

    // Appends all rows, from the last finished vertex to the first.
    fn put_all(&mut self, index: &[u32], finished: &[u32], found: &[u32])
        requires { length index.now ≡ index_words }
        ensures { GoesOn self.old self.new }
    {
        let mut components = found;
        for &vertex in finished.iter().rev() {
            components = self.gather(vertex, components);
            self.put_rows_out(index, vertex);
        }
    }
}

// The vertices that rows lead out of.
fn list_sources(index: &[u32], sources: &mut List)
    requires { length index.now ≡ index_words }
{
    for (vertex, &row) in index[LAST_OUT..LAST_OUT + USABLE_LIMIT].iter().enumerate() {
        if row != 0 {
            sources.push(vertex as u32);
        }
    }
}

// Writes the order to `rows`, and says how many words it takes.
pub fn order_rows(index: &[u32], used: usize, rows: &mut [u32]) -> usize
    requires { Indexed index.now used × (length rows.old ≡ order_words) }
    ensures { (result ≤ order_words) × (length rows.new ≡ order_words) × ((k : ℕ) → k < result → get_or rows.new k 0 < used) }
{
    let mut sources = List::new();
    let mut finished = List::new();
    let mut found = List::new();
    list_sources(index, &mut sources);
    search_all(
        index,
        Way::ALONG,
        sources.listed(),
        &mut found,
        &mut finished,
    );
    // Nobody reads what the second search lists as finished.
    sources.clear();
    found.clear();
    search_all(
        index,
        Way::AGAINST,
        finished.listed(),
        &mut found,
        &mut sources,
    );
    let mut order = Order {
        rows,
        used,
        count: 0,
    };
    order.put_all(index, finished.listed(), found.listed());
    order.count
}
