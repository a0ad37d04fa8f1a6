use crate::hook::Hook;
use crate::notice::Notice;

/// A hook that counts what it hears.
#[derive(Debug, Drop)]
pub struct TallyHook {
    /// How many notices it has heard, at most `u64::MAX`.
    pub number: u64,
    /// How many keys they said were touched, in sum, at most `u64::MAX`.
    pub touched: u64,
    /// The version of the last one, or 0.
    pub last: u64,
}

impl TallyHook {
    ghost use Rattle.std.specs.Prelude.{◌≡◌};

    /// A hook that has heard nothing.
    pub fn make() -> TallyHook
        ensures { result ≡ record { number = 0; touched = 0; last = 0 } }
    {
        TallyHook {
            number: 0,
            touched: 0,
            last: 0,
        }
    }
}

impl Hook for TallyHook {
    ghost use Rattle.std.specs.Prelude.{◌+◌, ◌-◌, ◌^◌, min};

    ghost step = { λ s n. record {
      number = min (s.number + 1) (2 ^ 64 - 1);
      touched = min (s.touched + n.touched) (2 ^ 64 - 1);
      last = n.version;
    } };

    fn hear(&mut self, notice: &Notice) {
        self.number = self.number.saturating_add(1);
        self.touched = self.touched.saturating_add(notice.touched);
        self.last = notice.version;
    }
}
