// The walk along the shortest chain: for each vertex the lowest vertex one edge nearer, found in one pass over the held edges, and from
// each vertex on to that one.
ghost use Rattle.std.specs.Prelude.{◌≡◌, ◌++◌, ◌+◌, ◌<◌, length, drop};
ghost use Rattle.graph.specs.Internal.Search.{search_limit, Rows};
ghost use Rattle.chains.specs.Internal.Walk.{is_nearer, none_nearer, Nearest, walk, Walkable};

use graph::rows::{EDGE_WORDS, SOURCE, TARGET, first_rows};

// By their distances to `to`, `target` is one edge nearer than `source`. The distance of `to` itself is 0, whatever stands there.
fn is_nearer(distances: &[u32], to: u32, source: u32, target: u32) -> bool
    requires distances_len { length distances.now ≡ search_limit }
    requires source_lt_search_limit { (source < search_limit) × (target < search_limit) }
    ensures { result ≡ is_nearer distances.now to source target }
{
    let far = distances[source as usize];
    if target == to {
        return far == 1;
    }
    let near = distances[target as usize];
    if near == 0 || far <= near {
        return false;
    }
    far - near == 1
}

// Finds for each vertex the lowest vertex one edge nearer to `to`. `nearest` has a word for each vertex of a search, and keeps the
// number of these where there is none.
pub(crate) fn find_nearest(
    edges: &[u32],
    held: usize,
    to: u32,
    distances: &[u32],
    nearest: &mut [u32],
)
    requires rows { Rows edges.now held }
    requires distances_len { length distances.now ≡ search_limit }
    requires nearest_value { nearest.old ≡ none_nearer }
    ensures { Nearest edges.now held to distances.now nearest.new }
{
    for row in first_rows::<EDGE_WORDS>(edges, held) {
        let source = row[SOURCE];
        let target = row[TARGET];
        if !is_nearer(distances, to, source, target) {
            continue;
        }
        if nearest[source as usize] <= target {
            continue;
        }
        nearest[source as usize] = target;
    }
}

// Writes the vertices from `from` on, `links` times on to the nearest, into the front of `list`. Its words are counted, since the count is also the
// place of the last vertex.
pub(crate) fn write_walk(nearest: &[u32], links: usize, from: u32, list: &mut [u32])
    requires nearest_len { (length nearest.now ≡ search_limit) × Walkable nearest.now links from }
    requires links_in_bounds { links < length list.old }
    ensures { list.new ≡ walk nearest.now links from ++ drop (links + 1) list.old }
{
    let mut vertex = from;
    for k in 0..links {
        list[k] = vertex;
        vertex = nearest[vertex as usize];
    }
    list[links] = vertex;
}
