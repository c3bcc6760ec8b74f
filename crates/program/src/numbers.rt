// Reading a number.
ghost use Rattle.std.specs.Prelude.{◌≡◌, ◌+◌, ◌≤◌, length};
ghost use Rattle.program.specs.Limits.{program_bytes};
ghost use Rattle.program.specs.Reader.{number};
ghost use Rattle.program.specs.Answers.{item_counts};
ghost use Rattle.program.specs.Internal.Progress.{reached_number, number_progress, number_end, number_ended};

use crate::Reader;
use crate::format::{JOB_LIMIT, NUMBER_BYTES, TOP_BIT};
use refusal::{Reason, Refusal};

impl Reader {
    // The same reader, so many bytes further.
    pub(crate) fn moved(self, bytes: u32) -> Self
        requires { self.place + bytes ≤ program_bytes }
        ensures { (result.place ≡ self.place + bytes) × (result.seen ≡ self.seen) }
    {
        Self {
            place: self.place + bytes,
            ..self
        }
    }

    // A refusal at this reader's place.
    pub(crate) fn refused(self, reason: Reason) -> Refusal
        ensures { result ≡ record { reason = reason; place = self.place } }
    {
        Refusal {
            reason,
            place: self.place,
        }
    }

    // The number at this reader's place, where `bytes` start, and the reader moved past it. Its groups hold up to 35 bits, so its value is
    // built in 64, and becomes 32 behind the test of the limit.
    pub(crate) fn number(self, bytes: &[u8]) -> Result<(u32, Self), Refusal>
        requires { self.place + length bytes.now ≤ program_bytes }
        ensures { reached_number result ≡ number_progress (self.place + length bytes.now) (item_counts self.seen) (number bytes.now) }
    {
        let mut value: u64 = 0;
        let mut weight: u64 = 1;
        for i in 0..NUMBER_BYTES {
            let Some(&group) = bytes.get(i) else {
                return Err(self.moved(i as u32).refused(Reason::BytesRunOut));
            };
            if group < TOP_BIT {
                return self.number_ended(value + weight * group as u64, group, i as u32);
            }
            value += weight * (group - TOP_BIT) as u64;
            weight *= TOP_BIT as u64;
        }
        Err(self.refused(Reason::NumberMalformed))
    }

    // The number at this reader's place, of this value, where its last group stands behind so many others.
    #[tactic(auto, unfolding(crate::specs::Internal::Progress::number_ended))]
    fn number_ended(self, value: u64, last: u8, others: u32) -> Result<(u32, Self), Refusal>
        requires { self.place + others + 1 ≤ program_bytes }
        ensures { reached_number result ≡ number_ended self.place (item_counts self.seen) value last others }
    {
        if last == 0 && others != 0 {
            return Err(self.refused(Reason::NumberMalformed));
        }
        if JOB_LIMIT < value {
            return Err(self.refused(Reason::JobTooLarge));
        }
        Ok((value as u32, self.moved(others + 1)))
    }
}

// How many bytes the number at the start of `bytes` has.
pub(crate) fn number_end(bytes: &[u8]) -> usize
    ensures { result ≡ number_end bytes.now }
{
    match bytes.iter().position(|&byte| byte < TOP_BIT) {
        Some(last) => last + 1,
        None => bytes.len(),
    }
}
