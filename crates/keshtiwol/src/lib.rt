// The engine for hosts in C, Rust and Python: each call under a plain name, with pointers and lengths, the tally behind a pointer, and an answer of
// plain numbers. `include/keshtiwol.h` declares them. Each is thin, over the by-value core of its name in `cores`.
#![tactic(auto)]

mod cores;
mod replies;

ghost use Rattle.std.specs.Prelude.{◌≡◌};
ghost use Rattle.graph.specs.Tables.{lent};
ghost use Rattle.graph.specs.Commands.{opening};
ghost use Rattle.chains.specs.Showing.{show_chain};
ghost use Rattle.keshtiwol.specs.Numbers.{OpenReplied, Commanded, LoadReplied, Replied, RunReplied, DispatchReplied, LowestReplied, ChainReplied, by_numbers, edition_of, load_in, step_in, run_in, dispatch_in, choice_in, version};

use crate::cores::{
    chain_to_numbers, command_by_numbers, dispatch_to_numbers, load_to_numbers, lowest_to_numbers,
    open_to_numbers, run_to_numbers, step_to_numbers,
};
use graph::Tally;

// 10,000 times the major number, 100 times the minor one, and the patch's.
pub const VERSION: u32 = 40_201;

// What was said, and its values: vertices, a job's number and offset, or a refusal's number and place. `replies` has the numbers.
#[repr(C)]
#[derive(Clone, Copy)]
pub struct Reply {
    pub said: u32,
    pub first: u32,
    pub second: u32,
}

// How a run ended, its last step, and the steps taken.
#[repr(C)]
#[derive(Clone, Copy)]
pub struct RunReply {
    pub ending: Reply,
    pub last: Reply,
    pub taken: u32,
}

// How a dispatch ended, the steps taken, and how many jobs were handed out.
#[repr(C)]
#[derive(Clone, Copy)]
pub struct DispatchReply {
    pub ending: Reply,
    pub taken: u32,
    pub handed: u32,
}

// What the cores return: the answer, and the tally afterwards.
#[derive(Clone, Copy)]
pub struct Done<A> {
    pub answer: A,
    pub tally: Tally,
}

// The version of this library, as one number.
#[tactic(auto, unfolding(crate::specs::Numbers::version))]
#[unsafe(no_mangle)]
pub extern "C" fn keshtiwol_version() -> u32
    ensures { result ≡ version }
{
    VERSION
}

// Opens the bare machine.
#[unsafe(no_mangle)]
pub extern "C" fn keshtiwol_open(
    vertices: &mut [u32],
    edges: &mut [u32],
    tally: &mut Tally,
) -> Reply
    ensures { OpenReplied (opening (lent vertices.old edges.old tally.old)) result (lent vertices.new edges.new tally.new) }
{
    let before = *tally;
    let done = open_to_numbers(vertices, edges, before);
    *tally = done.tally;
    done.answer
}

// A single command of the calculus.
#[unsafe(no_mangle)]
pub extern "C" fn keshtiwol_command(
    vertices: &mut [u32],
    edges: &mut [u32],
    tally: &mut Tally,
    command: u32,
    caller: u32,
    first: u32,
    second: u32,
) -> Reply
    ensures { Commanded (by_numbers command caller first second (lent vertices.old edges.old tally.old)) result (lent vertices.new edges.new tally.new) }
{
    let before = *tally;
    let done = command_by_numbers(vertices, edges, before, command, caller, first, second);
    *tally = done.tally;
    done.answer
}

// Loads a program, in the edition with this number.
#[unsafe(no_mangle)]
pub extern "C" fn keshtiwol_load(
    program: &[u8],
    vertices: &mut [u32],
    edges: &mut [u32],
    tally: &mut Tally,
    edition: u32,
) -> Reply
    ensures { LoadReplied (load_in (edition_of edition) program.now (lent vertices.old edges.old tally.old)) result (lent vertices.new edges.new tally.new) }
{
    let before = *tally;
    let done = load_to_numbers(program, vertices, edges, before, edition);
    *tally = done.tally;
    done.answer
}

// One step of a vertex.
#[unsafe(no_mangle)]
pub extern "C" fn keshtiwol_step(
    program: &[u8],
    vertices: &mut [u32],
    edges: &mut [u32],
    tally: &mut Tally,
    edition: u32,
    vertex: u32,
) -> Reply
    ensures { Replied (step_in (edition_of edition) program.now (lent vertices.old edges.old tally.old) vertex) result (lent vertices.new edges.new tally.new) }
{
    let before = *tally;
    let done = step_to_numbers(program, vertices, edges, before, edition, vertex);
    *tally = done.tally;
    done.answer
}

// A run with a budget of steps.
#[unsafe(no_mangle)]
pub extern "C" fn keshtiwol_run(
    program: &[u8],
    vertices: &mut [u32],
    edges: &mut [u32],
    tally: &mut Tally,
    edition: u32,
    budget: u32,
) -> RunReply
    ensures { RunReplied (run_in (edition_of edition) program.now (lent vertices.old edges.old tally.old) budget) result (lent vertices.new edges.new tally.new) }
{
    let before = *tally;
    let done = run_to_numbers(program, vertices, edges, before, edition, budget);
    *tally = done.tally;
    done.answer
}

// Steps the lowest vertex that can step and is not busy, with a budget of steps. Jobs are handed out: their vertices are marked busy, and they are
// written into the list.
#[unsafe(no_mangle)]
pub extern "C" fn keshtiwol_dispatch(
    program: &[u8],
    vertices: &mut [u32],
    edges: &mut [u32],
    tally: &mut Tally,
    edition: u32,
    budget: u32,
    busy: &mut [u32],
    jobs: &mut [u32],
) -> DispatchReply
    ensures { DispatchReplied (dispatch_in (edition_of edition) program.now (lent vertices.old edges.old tally.old) budget busy.old jobs.old) result (lent vertices.new edges.new tally.new) busy.new jobs.new }
{
    let before = *tally;
    let done = dispatch_to_numbers(
        program, vertices, edges, before, edition, budget, busy, jobs,
    );
    *tally = done.tally;
    done.answer
}

// The lowest vertex that can step.
#[unsafe(no_mangle)]
pub extern "C" fn keshtiwol_lowest(
    program: &[u8],
    vertices: &[u32],
    edges: &[u32],
    tally: &Tally,
    edition: u32,
) -> Reply
    ensures { LowestReplied (choice_in (edition_of edition) program.now (lent vertices.now edges.now tally.now)) result }
{
    let before = *tally;
    lowest_to_numbers(program, vertices, edges, before, edition)
}

// The shortest chain of held edges from `target` back to `source`, written into the list.
#[unsafe(no_mangle)]
pub extern "C" fn keshtiwol_chain(
    vertices: &[u32],
    edges: &[u32],
    tally: &Tally,
    source: u32,
    target: u32,
    list: &mut [u32],
) -> Reply
    ensures { ChainReplied (show_chain (lent vertices.now edges.now tally.now) source target list.old) result list.new }
{
    let before = *tally;
    chain_to_numbers(vertices, edges, before, source, target, list)
}
