// A program with the ends of its bodies. That they are its ends is said once here, and whoever is handed one counts on it.
ghost use Rattle.std.specs.Prelude.{◌≡◌, length};
ghost use Rattle.program.specs.Limits.{program_bytes};
ghost use Rattle.program.specs.Located.{MarksEnds};

use crate::Edition;

// `ends` are what `ends::mark_ends` writes.
#[derive(Clone, Copy)]
pub struct MarkedProgram<'a> {
    pub bytes: &'a [u8],
    pub ends: &'a [u16],
    pub edition: Edition,
    pub ghost marks_ends: { MarksEnds edition bytes.now ends.now },
    pub ghost ends_long: { length ends.now ≡ program_bytes },
}
