// The entry points: the tally is lent too, as a struct by `&mut`. Each is thin, over the by-value core of the same name.
ghost use Rattle.graph.specs.Tables.{lent};
ghost use Rattle.machine.specs.Traces.{Ran, Dispatched};
ghost use Rattle.walks.specs.Answers.{ending_of, last_of, dispatch_ending_of};

use crate::dispatches::dispatch_by_value;
use crate::runs::run_by_value;
use crate::{DispatchAnswer, RunAnswer};
use graph::Tally;
use program::Edition;

pub fn run(
    program: &[u8],
    vertices: &mut [u32],
    edges: &mut [u32],
    tally: &mut Tally,
    edition: Edition,
    budget: u32,
) -> RunAnswer
    ensures { Ran edition program.now (lent vertices.old edges.old tally.old) budget (ending_of result.ending) (last_of result.last) result.taken (lent vertices.new edges.new tally.new) }
{
    let before = *tally;
    let done = run_by_value(program, vertices, edges, before, edition, budget);
    *tally = done.tally;
    done.answer
}

pub fn dispatch(
    program: &[u8],
    vertices: &mut [u32],
    edges: &mut [u32],
    tally: &mut Tally,
    edition: Edition,
    budget: u32,
    busy: &mut [u32],
    jobs: &mut [u32],
) -> DispatchAnswer
    ensures { Dispatched edition program.now (lent vertices.old edges.old tally.old) busy.old jobs.old budget (dispatch_ending_of result.ending) result.taken (lent vertices.new edges.new tally.new) busy.new jobs.new result.handed }
{
    let before = *tally;
    let done = dispatch_by_value(
        program, vertices, edges, before, edition, budget, busy, jobs,
    );
    *tally = done.tally;
    done.answer
}
