// Demand 3 as the promise of a function: a loading, and then a list of steps, all of one edition.
ghost use Rattle.graph.specs.Tables.{lent};
ghost use Rattle.engine.specs.Answers.{loading_said};
ghost use Rattle.engine.specs.Promise.{Promised};

use crate::ListDone;
use crate::load::load_by_value;
use crate::steps::step_by_value;
use graph::Tally;
use program::Edition;

// Loads a program and steps the vertices that are named, in their order, whether the steps are accepted or refused.
pub fn load_and_step(
    program: &[u8],
    vertices: &mut [u32],
    edges: &mut [u32],
    tally: Tally,
    edition: Edition,
    named: &[u32],
) -> ListDone
    ensures { Promised edition program.now (lent vertices.old edges.old tally) named.now (loading_said result.loading) result.accepted (lent vertices.new edges.new result.tally) }
{
    let loaded = load_by_value(program, vertices, edges, tally, edition);
    let mut after = loaded.tally;
    if loaded.answer.is_err() {
        return ListDone {
            loading: loaded.answer,
            accepted: 0,
            tally: after,
        };
    }
    for &vertex in named {
        after = step_by_value(program, vertices, edges, after, edition, vertex).tally;
    }
    ListDone {
        loading: loaded.answer,
        accepted: after.steps,
        tally: after,
    }
}
