// Draws numbers: the same for the same seed.
ghost use Rattle.std.specs.Prelude.{◌≡◌, ◌-◌, ◌≤◌};
ghost use Rattle.cases.specs.Draws.{next_state, drawn_below};

#[derive(Clone, Copy)]
pub struct Draw {
    pub state: u64,
}

pub fn begin(seed: u32) -> Draw
    ensures { result.state ≡ seed }
{
    Draw { state: seed as u64 }
}

impl Draw {
    pub fn next(self) -> Draw
        ensures { result.state ≡ next_state self.state }
    {
        Draw {
            state: (self.state % 2147483648 * 1103515245 + 12345) % 2147483648,
        }
    }

    // A number below `limit`, or 0 where that is 0.
    pub fn below(self, limit: u32) -> u32
        ensures { (result ≡ drawn_below self.state limit) × (result ≤ limit - 1) }
    {
        if limit == 0 {
            return 0;
        }
        (self.state / 4096 % (limit as u64)) as u32
    }
}
