// The entry points: the tally is lent too, as a struct by `&mut`. Each is thin, over the by-value core of the same name.
ghost use Rattle.graph.specs.Tables.{lent};
ghost use Rattle.machine.specs.Traces.{Loaded, Stepped};
ghost use Rattle.engine.specs.Answers.{loading_said, said};

use crate::Answer;
use crate::load::load_by_value;
use crate::steps::step_by_value;
use graph::Tally;
use program::Edition;
use refusal::Refusal;

pub fn load(
    program: &[u8],
    vertices: &mut [u32],
    edges: &mut [u32],
    tally: &mut Tally,
    edition: Edition,
) -> Result<(), Refusal>
    ensures { Loaded edition program.now (lent vertices.old edges.old tally.old) (loading_said result) (lent vertices.new edges.new tally.new) }
{
    let before = *tally;
    let done = load_by_value(program, vertices, edges, before, edition);
    *tally = done.tally;
    done.answer
}

pub fn step(
    program: &[u8],
    vertices: &mut [u32],
    edges: &mut [u32],
    tally: &mut Tally,
    edition: Edition,
    vertex: u32,
) -> Answer
    ensures { Stepped edition program.now (lent vertices.old edges.old tally.old) vertex (said result) (lent vertices.new edges.new tally.new) }
{
    let before = *tally;
    let done = step_by_value(program, vertices, edges, before, edition, vertex);
    *tally = done.tally;
    done.answer
}
