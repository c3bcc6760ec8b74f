// Whether a path of held edges leads from one vertex to another, and how many edges it takes. There is none where no edge leads out of the
// one or into the other; else a breadth-first search backwards from the vertex to be reached decides, which marks vertices with their
// distances. That is linear in the vertices and the held edges: the edge rows into each vertex are linked in one pass, and each vertex is
// looked at once, or twice where it is the one to be reached. It takes four words of stack for each usable row, 16 KiB.
ghost use Rattle.std.specs.Prelude.{◌≡◌, ◌*◌, ◌<◌, length};
ghost use Rattle.graph.specs.Paths.{reaches};
ghost use Rattle.graph.specs.Internal.Search.{search_limit, Rows, Searchable, Linked, blank, RowsFrom, Room, Scanned, Measured};

use crate::edges::leads;
use crate::rows::{EDGE_WORDS, SOURCE, TARGET, USABLE_LIMIT};

// The vertices of a search are below this. A run's own index gives a dropped row the vertex behind the last usable one for its source.
pub const SEARCH_LIMIT: usize = USABLE_LIMIT + 1;

// Links the held rows by their targets: `next` has a word for each of them. A row is counted from 1, so that 0 ends a list. The row's number is
// what is stored, and `Linked` speaks of it, so that `enumerate` would only name it twice.
fn link_rows(edges: &[u32], first: &mut [u32], next: &mut [u32])
    requires rows { Rows edges.now (length next.old) }
    requires first_value { first.old ≡ blank }
    ensures { Linked edges.now (length next.old) first.new next.new }
{
    for i in 0..next.len() {
        let target = edges[EDGE_WORDS * i + TARGET] as usize;
        next[i] = first[target];
        first[target] = (i + 1) as u32;
    }
}

// Follows the list of rows that starts at `row`. Each source that is not marked yet is marked with `distance` and put into the queue,
// whose new end is the result.
fn scan(
    edges: &[u32],
    next: &[u32],
    row: u32,
    distance: u32,
    distances: &mut [u32],
    queue: &mut [u32],
    tail: usize,
) -> usize
    requires rows_from { RowsFrom edges.now next.now row }
    requires distance_nonzero { 0 < distance }
    requires room { Room distances.old queue.old tail }
    ensures { Scanned edges.now row distance distances.old queue.old tail 0 distances.new queue.new result }
{
    let mut left = row;
    let mut end = tail;
    while left != 0 {
        let i = (left - 1) as usize;
        let source = edges[EDGE_WORDS * i + SOURCE];
        let mark = source as usize;
        left = next[i];
        if distances[mark] == 0 {
            distances[mark] = distance;
            queue[end] = source;
            end += 1;
        }
    }
    end
}

// Looks at the vertex to be reached and then at each vertex of the queue, until `from` is marked or the queue is at its end.
pub fn search_back(
    edges: &[u32],
    first: &[u32],
    next: &[u32],
    from: u32,
    to: u32,
    distances: &mut [u32],
    queue: &mut [u32],
) -> bool
    requires rows { Rows edges.now (length next.now) }
    requires linked { Linked edges.now (length next.now) first.now next.now }
    requires from_lt_search_limit { (from < search_limit) × (to < search_limit) }
    requires distances_value { (distances.old ≡ blank) × (length queue.old ≡ search_limit) }
    ensures { (result ≡ reaches edges.now (length next.now) from to) × Measured edges.now (length next.now) from to result distances.new }
{
    let mut vertex = to as usize;
    let mut distance = 0;
    let mut head = 0;
    let mut tail = 0;
    loop {
        tail = scan(
            edges,
            next,
            first[vertex],
            distance + 1,
            distances,
            queue,
            tail,
        );
        if distances[from as usize] != 0 {
            return true;
        }
        if head == tail {
            return false;
        }
        vertex = queue[head] as usize;
        distance = distances[vertex];
        head += 1;
    }
}

// A path of one or more of the first `held` edges leads from `from` to `to`. `distances` has a word for each vertex of a search; where there is
// such a path, each vertex that is nearer to `to` than `from` is, and `from` itself, gets its distance there, the number of edges of its
// shortest path. Other words stay 0, or are distances too.
pub fn measure(edges: &[u32], held: usize, from: u32, to: u32, distances: &mut [u32]) -> bool
    requires searchable { Searchable edges.now held from to }
    requires distances_value { distances.old ≡ blank }
    ensures { (result ≡ reaches edges.now held from to) × Measured edges.now held from to result distances.new }
{
    let mut first = [0; SEARCH_LIMIT];
    let mut next = [0; USABLE_LIMIT];
    let mut queue = [0; SEARCH_LIMIT];
    link_rows(edges, &mut first, &mut next[..held]);
    search_back(
        edges,
        &first,
        &next[..held],
        from,
        to,
        distances,
        &mut queue,
    )
}

// The same, where only whether there is such a path matters.
fn search(edges: &[u32], held: usize, from: u32, to: u32) -> bool
    requires { Searchable edges.now held from to }
    ensures { result ≡ reaches edges.now held from to }
{
    let mut distances = [0; SEARCH_LIMIT];
    measure(edges, held, from, to, &mut distances)
}

// A path of one or more of the first `held` edges leads from `from` to `to`.
pub(crate) fn reaches(edges: &[u32], held: usize, from: u32, to: u32) -> bool
    requires { Searchable edges.now held from to }
    ensures { result ≡ reaches edges.now held from to }
{
    if !leads(edges, held, SOURCE, from) {
        return false;
    }
    if !leads(edges, held, TARGET, to) {
        return false;
    }
    search(edges, held, from, to)
}
