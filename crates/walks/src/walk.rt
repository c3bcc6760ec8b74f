// A walk: steps of the lowest vertex that can step and is not busy, one after the other, on an index of the edges. A run is a walk in which nobody is
// busy. A dispatch is one that hands jobs out: it marks their vertices busy, and writes them into a list.
ghost use Rattle.std.specs.Prelude.{◌≡◌, true, false, not, cond, List, ℕ, ◌*◌, ◌+◌, ◌<◌, ◌≤◌, max, leb, length, replicate};
ghost use Rattle.graph.specs.Tests.{both};
ghost use Rattle.graph.specs.Tables.{lent, usable_limit, vertex_words, edge_words, vertex_rows, edge_rows};
ghost use Rattle.graph.specs.Sound.{sound};
ghost use Rattle.index.specs.Layout.{row_limit, Indexed};
ghost use Rattle.index.specs.Table.{live_rows, table_of};
ghost use Rattle.index.specs.Underway.{state_of, Ready, may_step};
ghost use Rattle.machine.specs.Dispatching.{desk as desk_of};
ghost use Rattle.engine.specs.Answers.{said};
ghost use Rattle.machine.specs.Running.{lowest};
ghost use Rattle.machine.specs.Stepping.{step_limit};
ghost use Rattle.looks.specs.Looking.{FirstOpen, Shuts, Barred, found};
ghost use Rattle.walks.specs.Internal.Handing.{SameDesk, SameTables};
ghost use Rattle.walks.specs.Internal.Walking.{Covers, ShutAsTold, StillCovers, Settles, keeps_shut, Reopens, AttemptedOn};
ghost use Rattle.walks.specs.Internal.Walking.{WalkedTo, RestsBy, RestsAt};

use crate::desk::Desk;
pub use crate::desk::JOB_WORDS;
use crate::onindex::WalkTables;
use crate::{Candidates, LastStep, Rested, Taken, Walked};
use engine::Answer;
use engine::next::STEP_LIMIT;
use graph::Tally;
use graph::rows::{USABLE_LIMIT, clear, edge_rows};
use index::Course;
use index::layout::{INDEX_WORDS, ROW_LIMIT};
use index::rows::{hand_back, take_in};
use looks::look::Look;
use looks::open::{is_open, may_step, next_open};
use program::marked::MarkedProgram;

// A walk from sound tables.
pub(crate) fn walk(
    program: &MarkedProgram,
    vertices: &mut [u32],
    edges: &mut [u32],
    desk: &mut Desk,
    tally: Tally,
    budget: u32,
) -> Rested
    requires { (sound (lent vertices.old edges.old tally) ≡ true) × (desk.old.hands ≡ true → vertex_rows vertices.old ≤ length desk.old.busy.now) }
    ensures { RestsAt program.now.edition program.now.bytes.now desk.old.hands budget (lent vertices.old edges.old tally) (desk_of desk.old.busy.now desk.old.jobs.now 0) result (lent vertices.new edges.new result.walked.course.tally) (desk_of desk.new.busy.now desk.new.jobs.now result.walked.handed) × SameDesk desk.old desk.new }
{
    let mut index = [0; INDEX_WORDS];
    let mut shut = [0; USABLE_LIMIT];
    take_in(&mut index, edges, tally.held as usize);
    let start = Course {
        tally,
        used: tally.held,
        peak: tally.held,
    };
    let limit = edge_rows(edges) as u32;
    let mut tables = WalkTables {
        vertices,
        index: &mut index,
        limit,
    };
    let walked = walk_on(program, &mut tables, edges, desk, &mut shut, start, budget);
    let rested = tables.rest(program, desk, &mut shut, walked);
    tables.hand_back(edges, walked.course);
    rested
}

// The same on an index of the edges, which are handed back later. A vertex whose step was refused is shut until a step that might open it.
fn walk_on(
    program: &MarkedProgram,
    tables: &mut WalkTables,
    edges: &mut [u32],
    desk: &mut Desk,
    shut: &mut [u32],
    start: Course,
    budget: u32,
) -> Walked
    requires { Ready tables.old.vertices.now tables.old.index.now start tables.old.limit × (tables.old.limit ≡ edge_rows edges.old) × (desk.old.hands ≡ true → vertex_rows tables.old.vertices.now ≤ length desk.old.busy.now) × (shut.old ≡ replicate usable_limit 0) }
    ensures { WalkedTo program.now.edition program.now.bytes.now desk.old.hands budget (state_of tables.old.vertices.now tables.old.index.now start edges.old) (desk_of desk.old.busy.now desk.old.jobs.now 0) result (state_of tables.new.vertices.now tables.new.index.now result.course edges.new) (desk_of desk.new.busy.now desk.new.jobs.now result.handed) × Ready tables.new.vertices.now tables.new.index.now result.course tables.old.limit × (tables.old.limit ≡ edge_rows edges.new) × (length shut.new ≡ usable_limit) × Barred program.now.edition program.now.bytes.now (state_of tables.new.vertices.now tables.new.index.now result.course edges.new) shut.new × SameTables tables.old tables.new × SameDesk desk.old desk.new }
{
    let mut walked = Walked {
        course: start,
        last: LastStep::NoStep,
        taken: 0,
        handed: 0,
        over: false,
    };
    let mut candidates = Candidates {
        low: 0,
        skip: 0,
        shut: false,
    };
    // No `for`: the count of turns is the count of steps, which is answered.
    while walked.taken < budget {
        if desk.is_full(walked.handed) {
            return walked;
        }
        let course = tables.renew(edges, walked.course);
        match tables.take_next(program, desk, shut, course, candidates) {
            None => {
                return Walked {
                    course,
                    over: true,
                    ..walked
                };
            }
            Some(taken) => {
                let handed = desk.hand_out(walked.handed, taken.vertex, taken.answer);
                candidates = taken.candidates;
                walked = Walked {
                    course: taken.course,
                    last: LastStep::Step(taken.answer),
                    taken: walked.taken + 1,
                    handed,
                    over: false,
                };
            }
        }
    }
    walked
}

impl<'a> WalkTables<'a> {
    // Steps the lowest vertex that can step and is not busy, where a row of the index is left.
    fn take_next(
        &mut self,
        program: &MarkedProgram,
        desk: &Desk,
        shut: &mut [u32],
        course: Course,
        candidates: Candidates,
    ) -> Option<Taken>
        requires { Ready self.old.vertices.now self.old.index.now course self.old.limit × (course.used < row_limit) × Covers candidates self.old.vertices.now desk.now.busy.now shut.old course.tally.made × ShutAsTold candidates shut.old }
        ensures { AttemptedOn program.now.edition program.now.bytes.now self.old.vertices.now self.old.index.now desk.now.busy.now shut.old course self.old.limit result self.new.vertices.now self.new.index.now shut.new × SameTables self.old self.new }
    {
        let tally = course.tally;
        let made = tally.made;
        if STEP_LIMIT <= tally.steps {
            return None;
        }
        let mut vertex = self.first_open(desk, shut, made, candidates);
        let mut told = candidates.shut;
        // No `for`: which vertex is next is looked for anew, as a turn may shut one.
        while vertex < made {
            let moved = self.step(program, course, vertex);
            let answer = moved.answer;
            if !answer.is_refused() {
                let behind = found(candidates, vertex, told);
                let left = self.settled(made, behind, moved.lowest, moved.highest);
                return Some(Taken {
                    vertex,
                    answer,
                    course: moved.course,
                    candidates: reopened(shut, answer, left),
                });
            }
            shut[vertex as usize] = 1;
            told = true;
            let from = (vertex + 1).max(candidates.skip);
            vertex = self.look_further(program, desk, shut, course, from);
        }
        None
    }

    // The first open vertex from `from` on that can step, or `made` where there is none: `next_able`, which is no part of the walk's loop. What it is
    // handed goes through memory; handed over from here, the loop's own slices and course need not.
    fn look_further(
        &self,
        program: &MarkedProgram,
        desk: &Desk,
        shut: &mut [u32],
        course: Course,
        from: u32,
    ) -> u32
        requires { Ready self.now.vertices.now self.now.index.now course self.now.limit × (course.tally.steps < step_limit) × (length shut.old ≡ usable_limit) }
        ensures { Shuts program.now.edition program.now.bytes.now self.now.vertices.now self.now.index.now course self.now.limit shut.old shut.new × FirstOpen self.now.vertices.now desk.now.busy.now shut.new course.tally.made from result }
    {
        let look = Look {
            program: *program,
            vertices: self.vertices,
            index: self.index,
            limit: self.limit,
            course,
            busy: desk.busy,
        };
        look.next_able(shut, from)
    }

    // The first vertex that is open, or `made` where there is none.
    fn first_open(&self, desk: &Desk, shut: &[u32], made: u32, candidates: Candidates) -> u32
        requires { (vertex_words * made ≤ length self.now.vertices.now) × (made ≤ length shut.now) × Covers candidates self.now.vertices.now desk.now.busy.now shut.now made }
        ensures { FirstOpen self.now.vertices.now desk.now.busy.now shut.now made 0 result }
    {
        let low = candidates.low;
        if low < candidates.skip && low < made && is_open(self.vertices, desk.busy, shut, low) {
            return low;
        }
        next_open(self.vertices, desk.busy, shut, made, candidates.skip)
    }

    // Where they are after a step, behind which vertices between these numbers may step that could not before.
    fn settled(&self, made: u32, candidates: Candidates, lowest: u32, highest: u32) -> Candidates
        requires { vertex_words * made ≤ length self.now.vertices.now }
        ensures { Settles candidates made self.now.vertices.now lowest highest result × (result.shut ≡ candidates.shut) }
    {
        if highest < lowest || candidates.skip <= lowest {
            return candidates;
        }
        if lowest == highest && is_idle(self.vertices, made, candidates.low) {
            return Candidates {
                low: lowest,
                ..candidates
            };
        }
        Candidates {
            skip: lowest,
            ..candidates
        }
    }

    // Where a walk rests: who can step there.
    fn rest(&self, program: &MarkedProgram, desk: &Desk, shut: &mut [u32], walked: Walked) -> Rested
        requires { Ready self.now.vertices.now self.now.index.now walked.course self.now.limit × (length shut.old ≡ usable_limit) }
        ensures { (result.walked ≡ walked) × ((e : List ℕ) → edge_rows e ≡ self.now.limit → RestsBy program.now.edition program.now.bytes.now desk.now.hands desk.now.busy.now shut.old walked (state_of self.now.vertices.now self.now.index.now walked.course e) result.free result.any) }
    {
        let look = Look {
            program: *program,
            vertices: self.vertices,
            index: self.index,
            limit: self.limit,
            course: walked.course,
            busy: desk.busy,
        };
        rest_of(&look, shut, desk.hands, walked)
    }

    // Hands the edges that are left back.
    fn hand_back(&self, edges: &mut [u32], course: Course)
        requires { Indexed self.now.index.now course.used × (edge_words * course.peak ≤ length edges.old) × (live_rows self.now.index.now course.used ≤ course.peak) }
        ensures { edges.new ≡ table_of self.now.index.now course.used course.peak edges.old }
    {
        hand_back(
            edges,
            self.index,
            course.used as usize,
            course.peak as usize,
        );
    }

    // The same walk with a row of the index left. Where all are used, the edges that are left are handed back and taken in anew.
    fn renew(&mut self, edges: &mut [u32], course: Course) -> Course
        requires { Ready self.old.vertices.now self.old.index.now course self.old.limit × (self.old.limit ≡ edge_rows edges.old) }
        ensures { Ready self.new.vertices.now self.new.index.now result self.new.limit × (result.used < row_limit) × (self.new.limit ≡ edge_rows edges.new) × (state_of self.new.vertices.now self.new.index.now result edges.new ≡ state_of self.old.vertices.now self.old.index.now course edges.old) × SameTables self.old self.new }
    {
        if (course.used as usize) < ROW_LIMIT {
            return course;
        }
        self.hand_back(edges, course);
        clear(self.index, 0, INDEX_WORDS);
        let tally = course.tally;
        take_in(self.index, edges, tally.held as usize);
        Course {
            tally,
            used: tally.held,
            peak: tally.held,
        }
    }
}

// The same, of a look.
fn rest_of(look: &Look, shut: &mut [u32], hands: bool, walked: Walked) -> Rested
    requires { length shut.old ≡ usable_limit }
    ensures { (result.walked ≡ walked) × ((e : List ℕ) → edge_rows e ≡ look.now.limit → RestsBy look.now.program.edition look.now.program.bytes.now hands look.now.busy.now shut.old walked (state_of look.now.vertices.now look.now.index.now look.now.course e) result.free result.any) }
{
    if walked.over || !look.anyone_can(shut) {
        return none_free(look, shut, hands, walked);
    }
    Rested {
        walked,
        free: true,
        any: true,
    }
}

// The same, where no vertex that is not busy can step.
fn none_free(look: &Look, shut: &mut [u32], hands: bool, walked: Walked) -> Rested
    requires { length shut.old ≡ usable_limit }
    ensures { (result.walked ≡ walked) × (result.free ≡ false) × ((e : List ℕ) → edge_rows e ≡ look.now.limit → Barred look.now.program.edition look.now.program.bytes.now (state_of look.now.vertices.now look.now.index.now look.now.course e) shut.old → hands ≡ true → result.any ≡ found (lowest look.now.program.edition look.now.program.bytes.now (state_of look.now.vertices.now look.now.index.now look.now.course e))) }
{
    let nobody_busy = [0u32; 1];
    let look = Look {
        program: look.program,
        vertices: look.vertices,
        index: look.index,
        limit: look.limit,
        course: look.course,
        busy: &nobody_busy,
    };
    let any = hands && look.anyone_can(shut);
    Rested {
        walked,
        free: false,
        any,
    }
}

// A step that answers this lets no other vertex step that was refused before.
fn keeps_shut(answer: Answer) -> bool
    ensures { result ≡ keeps_shut (said answer) }
{
    matches!(
        answer,
        Answer::Job { .. } | Answer::Start | Answer::Edge(_, _)
    )
}

// Where the candidates are behind a step that answers this. Where it might open a vertex that is shut, all are opened, and they begin anew.
fn reopened(shut: &mut [u32], answer: Answer, candidates: Candidates) -> Candidates
    requires { length shut.old ≡ usable_limit }
    ensures { Reopens (said answer) candidates shut.old result shut.new }
{
    if !candidates.shut || keeps_shut(answer) {
        return candidates;
    }
    clear(shut, 0, USABLE_LIMIT);
    Candidates {
        low: 0,
        skip: 0,
        shut: false,
    }
}

// Where the candidates are besides `vertex`, the first of them: behind it. Whether some are shut is told anew.
fn found(candidates: Candidates, vertex: u32, told: bool) -> Candidates
    requires { vertex < usable_limit }
    ensures { StillCovers candidates vertex result × (result.shut ≡ told) }
{
    if vertex < candidates.skip {
        return Candidates {
            shut: told,
            ..candidates
        };
    }
    Candidates {
        low: vertex,
        skip: vertex + 1,
        shut: told,
    }
}

// `vertex` is not made, or may not step.
fn is_idle(vertices: &[u32], made: u32, vertex: u32) -> bool
    requires { vertex_words * made ≤ length vertices.now }
    ensures { result ≡ true → vertex < made → may_step vertices.now vertex ≡ false }
{
    made <= vertex || !may_step(vertices, vertex as usize)
}
