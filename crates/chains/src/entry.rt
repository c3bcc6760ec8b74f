// The entry point: the tally is lent too. It is thin, over the by-value core.
ghost use Rattle.std.specs.Prelude.{◌≡◌};
ghost use Rattle.graph.specs.Tables.{lent};
ghost use Rattle.chains.specs.Showing.{answered, show_chain};

use crate::showing::chain_by_value;
use graph::Tally;
use refusal::Refusal;

// The shortest chain from `target` back to `source`, as `chain_by_value` writes it; the tally is read through its reference.
pub fn chain(
    vertices: &[u32],
    edges: &[u32],
    tally: &Tally,
    source: u32,
    target: u32,
    list: &mut [u32],
) -> Result<u32, Refusal>
    ensures { answered result list.new ≡ show_chain (lent vertices.now edges.now tally.now) source target list.old }
{
    let before = *tally;
    chain_by_value(vertices, edges, before, source, target, list)
}
