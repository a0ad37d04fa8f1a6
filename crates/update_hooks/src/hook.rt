ghost use Rattle.std.specs.Prelude.{◌≡◌};
ghost use Rattle.update_hooks.specs.declared.notice.Notice.{Notice};
ghost use Rattle.update_hooks.specs.Heard.{heard};

use crate::notice::Notice;

/// What hears notices, as its author writes it. Its state after a notice is its own stated step of the state before.
pub trait Hook: Drop {
    ghost step: { Self → Notice → Self };

    fn hear(&mut self, notice: &Notice)
        ensures { self.new ≡ step self.old notice.now };
}

/// A hook as it is kept, in a box or not. Its state after a notice is its own stated next one.
pub trait Hears {
    ghost next: { Self → Notice → Self };

    fn take_in(&mut self, notice: &Notice)
        ensures { self.new ≡ next self.old notice.now };
}

/// A hook, and how many notices it has heard; the count ends at `u64::MAX`.
#[derive(Drop)]
pub struct TalliedHook<H> {
    pub hook: H,
    pub tally: u64,
}

/// Tells a hook of a notice and counts it.
pub fn tell<H: Hears>(told: &mut TalliedHook<H>, notice: &Notice)
    ensures { told.new ≡ heard (λ hook. H.next hook notice.now) told.old }
{
    told.hook.take_in(notice);
    told.tally = told.tally.saturating_add(1);
}
