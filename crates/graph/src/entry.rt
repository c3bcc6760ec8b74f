// The entry points: the tally is lent too, as a struct by `&mut`. Each is thin, over the by-value core of the same name.
ghost use Rattle.std.specs.Prelude.{◌≡◌};
ghost use Rattle.graph.specs.Tables.{lent};
ghost use Rattle.graph.specs.Answers.{answered, answered_opening};
ghost use Rattle.graph.specs.Commands.{opening, command};

use crate::commands::{command_by_value, open_by_value};
use crate::{Answer, Command, Tally};
use refusal::Refusal;

pub fn open(vertices: &mut [u32], edges: &mut [u32], tally: &mut Tally) -> Result<(), Refusal>
    ensures { answered_opening result vertices.new edges.new tally.new ≡ opening (lent vertices.old edges.old tally.old) }
{
    let before = *tally;
    let done = open_by_value(vertices, edges, before);
    *tally = done.tally;
    done.answer
}

pub fn command(vertices: &mut [u32], edges: &mut [u32], tally: &mut Tally, given: Command) -> Answer
    ensures { answered result vertices.new edges.new tally.new ≡ command given (lent vertices.old edges.old tally.old) }
{
    let before = *tally;
    let done = command_by_value(vertices, edges, before, given);
    *tally = done.tally;
    done.answer
}
