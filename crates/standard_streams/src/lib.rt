// Standard input as a reader and standard output as a sink, over the library `io`, which asks the C library for `read` and `write` alone. No
// contract can say what is read there, nor what reaches whoever reads.
#![tactic(auto)]

ghost use Rattle.std.specs.Prelude.{◌≡◌, ◌≢◌, ◌<◌, [], Some, None, Ok, true, false, IfOk, IfErr, IsOk, length, if◌then◌else◌};
ghost use Rattle.std.specs.Io.{ReadsAtMost, WritesAtMost};
ghost use Rattle.std.specs.IoError.{error_kind};

use std::io::{ErrorKind, Result};

// The numbers of standard input and standard output.
const STDIN_FILENO: i32 = 0;

const STDOUT_FILENO: i32 = 1;

// It remembers its end, and behind it makes no call, so that at a terminal one end of input is enough.
#[derive(Drop)]
pub struct StandardInput {
    is_at_end: bool,
}

impl StandardInput {
    pub fn new() -> StandardInput
        ensures { result.is_at_end ≡ false }
    {
        StandardInput { is_at_end: false }
    }
}

impl std::io::Read for StandardInput {
    // Behind the end nothing is left.
    ghost remaining = { λ input. if input.is_at_end then Some [] else None };

    // It reads until the buffer is full, the input ends or a read fails. A read that fails ends the input.
    fn read(&mut self, buf: &mut [u8]) -> Result<usize>
        ensures bound { ReadsAtMost result buf.new }
        ensures never_fails { IsOk result }
        ensures end { IfOk result (λ n. n < length buf.new → self.new.is_at_end ≡ true) }
        ensures full { IfOk result (λ n. n ≡ length buf.new → self.new.is_at_end ≡ self.old.is_at_end) }
        ensures behind_the_end { self.old.is_at_end ≡ true → (result ≡ Ok 0) × (self.new.is_at_end ≡ true) }
    {
        if self.is_at_end {
            return Ok(0);
        }
        let n = io::read_full(STDIN_FILENO, buf);
        self.is_at_end = n < buf.len();
        Ok(n)
    }
}

#[derive(Clone, Copy)]
pub struct StandardOutput;

impl std::io::Write for StandardOutput {
    // It hands all of the bytes out by one call of the C library's `write`, or by more where the system takes only a part, or answers an error.
    // That does not say why, and is none after which `write_all` tries again.
    fn write(&mut self, buf: &[u8]) -> Result<usize>
        ensures bound { WritesAtMost result buf.now }
        ensures whole { IfOk result (λ n. n ≡ length buf.now) }
        ensures not_retried { IfErr result (λ e. error_kind e ≢ ErrorKind.Interrupted) }
    {
        if io::write_all(STDOUT_FILENO, buf) {
            Ok(buf.len())
        } else {
            Err(ErrorKind::Other.into())
        }
    }

    fn flush(&mut self) -> Result<()> {
        Ok(())
    }
}
