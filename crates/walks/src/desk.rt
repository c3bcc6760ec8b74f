// The desk of a walk: who is busy, and the list of the jobs that are handed out.
ghost use Rattle.std.specs.Prelude.{◌≡◌, true, cond, ◌<◌, leb, length};
ghost use Rattle.graph.specs.Tests.{both};
ghost use Rattle.graph.specs.Tables.{largest_word};
ghost use Rattle.machine.specs.Dispatching.{desk, hand_out, room};
ghost use Rattle.engine.specs.Answers.{said};
ghost use Rattle.walks.specs.Internal.Handing.{SameDesk};

use engine::Answer;

// The words of a row of the list.
pub const JOB_WORDS: usize = 3;

// The marks of who is busy, and the list; and whether jobs are handed out.
#[derive(Drop)]
pub(crate) struct Desk<'a> {
    pub hands: bool,
    pub busy: &'a mut [u32],
    pub jobs: &'a mut [u32],
}

impl<'a> Desk<'a> {
    // Jobs are handed out, and a list with so many has no row left.
    pub(crate) fn is_full(&self, handed: u32) -> bool
        ensures { result ≡ both self.now.hands (leb (room self.now.jobs.now) handed) }
    {
        self.hands && self.jobs.len() / JOB_WORDS <= handed as usize
    }

    // A job is handed out: its vertex is marked busy, and it is written into row `handed` of the list. How many are in it then is told.
    pub(crate) fn hand_out(&mut self, handed: u32, vertex: u32, answer: Answer) -> u32
        requires { self.old.hands ≡ true → (vertex < length self.old.busy.now) × (handed < room self.old.jobs.now) × (handed < largest_word) }
        ensures { desk self.new.busy.now self.new.jobs.now result ≡ cond self.old.hands (hand_out vertex (said answer) (desk self.old.busy.now self.old.jobs.now handed)) (desk self.old.busy.now self.old.jobs.now handed) × SameDesk self.old self.new }
    {
        if !self.hands {
            return handed;
        }
        match answer {
            Answer::Job { number, offset } => {
                self.busy[vertex as usize] = 1;
                let at = JOB_WORDS * (handed as usize);
                self.jobs[at] = vertex;
                self.jobs[at + 1] = number;
                self.jobs[at + 2] = offset;
                handed + 1
            }
            _ => handed,
        }
    }
}
