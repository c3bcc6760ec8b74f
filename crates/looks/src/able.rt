// Which open vertex can step.
ghost use Rattle.std.specs.Prelude.{◌≡◌, true, List, ℕ, ◌<◌, length};
ghost use Rattle.graph.specs.Tables.{usable_limit, edge_rows};
ghost use Rattle.index.specs.Underway.{state_of, may_step};
ghost use Rattle.machine.specs.Running.{can_step};
ghost use Rattle.machine.specs.Stepping.{step_limit};
ghost use Rattle.looks.specs.OfLook.{Early, Tells, FirstAble};

use crate::look::Look;
use crate::open::next_open;
use engine::Due;
use engine::next::{STEP_LIMIT, ended_due};
use graph::rows::{RELEASED, STATUS, VERTEX_WORDS};
use index::looks::would_take;

impl<'p, 't, 'b> Look<'p, 't, 'b> {
    // Some vertex that is not busy can step. Those that were looked at before it are shut.
    pub fn anyone_can(&self, shut: &mut [u32]) -> bool
        requires { length shut.old ≡ usable_limit }
        ensures { Tells self.now shut.old result shut.new }
    {
        let tally = self.course.tally;
        if STEP_LIMIT <= tally.steps {
            return false;
        }
        let first = self.next_able(shut, 0);
        first < tally.made
    }

    // The first open vertex from `from` on that can step, or `made` where there is none. Those before it are shut.
    pub fn next_able(&self, shut: &mut [u32], from: u32) -> u32
        requires { Early self.now shut.old }
        ensures { FirstAble self.now shut.old from result shut.new }
    {
        let made = self.course.tally.made;
        let first = next_open(self.vertices, self.busy, shut, made, from);
        if made <= first || self.can_step(first) {
            return first;
        }
        self.sift(shut);
        self.able_from(shut, from)
    }

    // The same, one open vertex after the other.
    fn able_from(&self, shut: &mut [u32], from: u32) -> u32
        requires { Early self.now shut.old }
        ensures { FirstAble self.now shut.old from result shut.new }
    {
        let made = self.course.tally.made;
        let mut vertex = next_open(self.vertices, self.busy, shut, made, from);
        // No `for`: which vertex is next is looked for anew, as each turn shuts one.
        while vertex < made {
            if self.can_step(vertex) {
                return vertex;
            }
            shut[vertex as usize] = 1;
            vertex = next_open(self.vertices, self.busy, shut, made, vertex + 1);
        }
        vertex
    }

    // A vertex that may step, as far as its own row tells, can step: it is released, or what is due would be accepted.
    fn can_step(&self, vertex: u32) -> bool
        requires { (self.now.course.tally.steps < step_limit) × (vertex < self.now.course.tally.made) × (may_step self.now.vertices.now vertex ≡ true) }
        ensures { (e : List ℕ) → edge_rows e ≡ self.now.limit → result ≡ can_step self.now.program.edition self.now.program.bytes.now (state_of self.now.vertices.now self.now.index.now self.now.course e) vertex }
    {
        if self.vertices[VERTEX_WORDS * (vertex as usize) + STATUS] == RELEASED {
            return true;
        }
        let made = self.course.tally.made;
        match ended_due(&self.program, self.vertices, made, vertex) {
            Due::Refused(_) => false,
            Due::Job { .. } => true,
            Due::Command { command, .. } => {
                would_take(self.vertices, self.index, self.limit, self.course, command)
            }
        }
    }
}
