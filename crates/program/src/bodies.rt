// The body reader and the item reader. They call each other, once for each level.
ghost use Rattle.std.specs.Prelude.{◌≡◌, ◌+◌, ◌≤◌, length};
ghost use Rattle.program.specs.Trees.{counts};
ghost use Rattle.program.specs.Claims.{HasNumber};
ghost use Rattle.program.specs.Reader.{item, body};
ghost use Rattle.program.specs.Answers.{item_counts};
ghost use Rattle.program.specs.Internal.Progress.{Ready, Few, reached, progress, plus, one_of, counts_of, numbered_of};

use crate::format::{ASYNC, END, FINISH, FORCE, FORK, FUTURE, JOB, LEVEL_LIMIT};
use crate::{Inside, ItemCounts, Reader};
use refusal::{Reason, Refusal};

impl Reader {
    // Reads the body at this reader's place, where `bytes` start: items up to its end byte.
    #[cycle(body_item)]
    pub(crate) fn body(self, bytes: &[u8], inside: Inside) -> Result<Self, Refusal>
        requires { Ready self bytes.now × (inside.opened ≤ self.place) }
        ensures { reached result ≡ progress counts (self.place + length bytes.now) (item_counts self.seen) (body inside.level inside.opened bytes.now) }
    {
        let mut reader = self;
        let mut here = inside;
        let mut from = 0;
        // No `for`: each turn goes on behind the item that it read.
        while from < bytes.len() {
            if bytes[from] == END {
                return Ok(reader.moved(1));
            }
            // A `match`, since with `?` here reading takes a quarter longer.
            reader = match reader.item(&bytes[from..], here) {
                Err(refusal) => return Err(refusal),
                Ok(behind) => behind,
            };
            if bytes[from] == FUTURE {
                here.opened += 1;
            }
            from = (reader.place - self.place) as usize;
        }
        Err(reader.refused(Reason::BytesRunOut))
    }

    // Reads the item at this reader's place, where `bytes` start.
    #[cycle(body_item)]
    #[tactic(auto, using(crate::proofs::ItemPaths::path_deep))]
    fn item(self, bytes: &[u8], inside: Inside) -> Result<Self, Refusal>
        requires { Ready self bytes.now × (inside.opened ≤ self.place) }
        ensures { reached result ≡ progress counts_of (self.place + length bytes.now) (item_counts self.seen) (item body inside.level inside.opened bytes.now) }
    {
        if bytes.is_empty() {
            return Err(self.refused(Reason::BytesRunOut));
        }
        let first = bytes[0];
        // Each arm moves the reader by itself: moved before the `match`, it is stored for every item, a tenth more instructions for a job. The second
        // arm names it, since without a name an async takes a third longer.
        match first {
            JOB | FORCE => self.moved(1).numbered(&bytes[1..], first, inside.opened),
            ASYNC | FINISH | FORK | FUTURE => {
                if LEVEL_LIMIT <= inside.level {
                    return Err(self.refused(Reason::LevelTooDeep));
                }
                let deeper = Inside {
                    level: inside.level + 1,
                    ..inside
                };
                let behind_first = self.moved(1);
                let mut behind = behind_first.body(&bytes[1..], deeper)?;
                if first == FORK {
                    let from = (behind.place - self.place) as usize;
                    behind = behind.body(&bytes[from..], deeper)?;
                }
                Ok(behind.counting(first))
            }
            _ => Err(self.refused(Reason::ByteUnknown)),
        }
    }

    // Reads the number behind the first byte of a job or a force, at this reader's place, where `bytes` start and so many futures are open.
    fn numbered(self, bytes: &[u8], first: u8, opened: u32) -> Result<Self, Refusal>
        requires { Ready self bytes.now × HasNumber first }
        ensures { reached result ≡ progress counts_of (self.place + length bytes.now) (item_counts self.seen) (numbered_of first opened bytes.now) }
    {
        let (value, past) = self.number(bytes)?;
        if first == JOB {
            return Ok(past.counting(JOB));
        }
        if opened <= value {
            return Err(self.refused(Reason::NoSuchFuture));
        }
        Ok(past.counting(FORCE))
    }

    // The same reader, with one more item seen, of the kind that starts with this byte.
    fn counting(self, first: u8) -> Self
        requires { Few (item_counts self.seen) }
        ensures { (result.place ≡ self.place) × (item_counts result.seen ≡ plus (item_counts self.seen) (one_of first)) }
    {
        let seen = self.seen;
        let counted = match first {
            JOB => ItemCounts {
                jobs: seen.jobs + 1,
                ..seen
            },
            ASYNC => ItemCounts {
                asyncs: seen.asyncs + 1,
                ..seen
            },
            FINISH => ItemCounts {
                finishes: seen.finishes + 1,
                ..seen
            },
            FORK => ItemCounts {
                forks: seen.forks + 1,
                ..seen
            },
            FUTURE => ItemCounts {
                futures: seen.futures + 1,
                ..seen
            },
            FORCE => ItemCounts {
                forces: seen.forces + 1,
                ..seen
            },
            _ => seen,
        };
        Self {
            seen: counted,
            ..self
        }
    }
}
