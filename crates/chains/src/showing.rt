// The shortest chain of held edges from one vertex to another, with the tally by value.
ghost use Rattle.std.specs.Prelude.{◌≡◌, true, [], ◌∷◌, ◌<◌};
ghost use Rattle.std.proofs.Math.Option.{some};
ghost use Rattle.graph.specs.Tables.{lent};
ghost use Rattle.graph.specs.Sound.{sound};
ghost use Rattle.chains.specs.Chains.{shortest_chain};
ghost use Rattle.chains.specs.Showing.{answered, tried, shown, show_chain};

use crate::nearest::{find_nearest, write_walk};
use graph::Tally;
use graph::paths::{SEARCH_LIMIT, measure};
use graph::sound::is_sound;
use refusal::{Reason, Refusal};

// The chain from a vertex to itself.
fn write_alone(vertex: u32, list: &mut [u32]) -> Result<u32, Reason>
    ensures { tried result list.new ≡ shown (some (vertex ∷ [])) list.old }
{
    if list.is_empty() {
        return Err(Reason::ListTooShort);
    }
    list[0] = vertex;
    Ok(1)
}

// The chain from `target` back to another vertex, `source`: it is written only where there is one, and the list has room for it.
fn write_shortest(
    vertices: &[u32],
    edges: &[u32],
    tally: Tally,
    source: u32,
    target: u32,
    list: &mut [u32],
) -> Result<u32, Reason>
    requires tally_value { sound (lent vertices.now edges.now tally) ≡ true }
    requires source_lt_made { (source < tally.made) × (target < tally.made) × (source ≡ target → ⊥) }
    ensures { tried result list.new ≡ shown (shortest_chain (lent vertices.now edges.now tally) target source) list.old }
{
    let held = tally.held as usize;
    let mut distances = [0; SEARCH_LIMIT];
    if !measure(edges, held, target, source, &mut distances) {
        return Err(Reason::NoChain);
    }
    let links = distances[target as usize];
    if list.len() <= links as usize {
        return Err(Reason::ListTooShort);
    }
    let mut nearest = [SEARCH_LIMIT as u32; SEARCH_LIMIT];
    find_nearest(edges, held, source, &distances, &mut nearest);
    write_walk(&nearest, links as usize, target, list);
    Ok(links + 1)
}

// The shortest chain from `target` back to `source`, and of these the first in vertex numbers: written into the front of `list`, vertex by
// vertex.
fn write_chain(
    vertices: &[u32],
    edges: &[u32],
    tally: Tally,
    source: u32,
    target: u32,
    list: &mut [u32],
) -> Result<u32, Reason>
    ensures { tried result list.new ≡ show_chain (lent vertices.now edges.now tally) source target list.old }
{
    if !is_sound(vertices, edges, tally) {
        return Err(Reason::UnsoundTables);
    }
    let made = tally.made;
    if made <= source || made <= target {
        return Err(Reason::NoSuchVertex);
    }
    if source == target {
        return write_alone(target, list);
    }
    write_shortest(vertices, edges, tally, source, target, list)
}

// The same: how many vertices the chain has, or the refusal.
pub fn chain_by_value(
    vertices: &[u32],
    edges: &[u32],
    tally: Tally,
    source: u32,
    target: u32,
    list: &mut [u32],
) -> Result<u32, Refusal>
    ensures { answered result list.new ≡ show_chain (lent vertices.now edges.now tally) source target list.old }
{
    Ok(write_chain(vertices, edges, tally, source, target, list)?)
}
