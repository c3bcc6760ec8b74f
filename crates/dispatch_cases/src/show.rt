// How answers are shown.
use cases::Refused;
use program::Edition;
use std::fmt;
use walks::{DispatchAnswer, DispatchEnding};

// The list has three words for each job: its vertex, its number and its offset.
pub(crate) const JOB_WORDS: usize = 3;

#[derive(Clone, Copy)]
pub(crate) struct Which(pub Edition);

impl fmt::Display for Which {
    fn fmt<W: fmt::Write>(&self, f: &mut fmt::Formatter<W>) -> fmt::Result {
        match self.0 {
            Edition::First => write!(f, "edition 1"),
            Edition::Second => write!(f, "edition 2"),
        }
    }
}

// What a dispatch answered, and the jobs that it handed out in this list.
#[derive(Clone, Copy)]
pub(crate) struct Handed<'a> {
    pub answer: DispatchAnswer,
    pub jobs: &'a [u32],
}

impl<'a> fmt::Display for Handed<'a> {
    fn fmt<W: fmt::Write>(&self, f: &mut fmt::Formatter<W>) -> fmt::Result {
        let DispatchAnswer {
            ending,
            taken,
            handed,
        } = self.answer;
        match ending {
            DispatchEnding::Done => write!(f, "done")?,
            DispatchEnding::Stuck => write!(f, "stuck")?,
            DispatchEnding::Waiting => write!(f, "waiting")?,
            DispatchEnding::Full => write!(f, "full")?,
            DispatchEnding::Spent => write!(f, "spent")?,
            DispatchEnding::Refused(refusal) => write!(f, "{}", Refused(refusal))?,
        }
        write!(f, ", taken {taken}, handed {handed}")?;
        for job in self.jobs.chunks_exact(JOB_WORDS).take(handed as usize) {
            write!(f, ",")?;
            for word in job {
                write!(f, " {word}")?;
            }
        }
        Ok(())
    }
}
