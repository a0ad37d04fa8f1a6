ghost use Rattle.std.specs.Prelude.{◌≡◌, ◌≤◌};
ghost use Rattle.io_ends.specs.Causes.{one_more};
ghost use Rattle.io_ends.specs.Memory.{is_to_fail, faults_after};

use plain_data::Listed;

/// Numbers of calls, counted from 1 on each object.
pub type Calls = Listed<u64>;

/// Which calls of an end in memory are to fail, how many were made and how many failed.
#[derive(Debug, Drop)]
pub struct Tally {
    pub fails: Calls,
    pub calls: u64,
    pub faults: u64,
}

impl Tally {
    /// A tally before the first call.
    pub fn new(fails: Calls) -> Tally
        ensures { result ≡ record { fails = fails; calls = 0; faults = 0 } }
    {
        Tally {
            fails,
            calls: 0,
            faults: 0,
        }
    }

    /// Counts one more call and answers whether it is to fail. One that is counts as a fault.
    pub fn next_fails(&mut self) -> bool
        ensures answer { result ≡ is_to_fail self.old.fails self.new.calls }
        ensures fails { self.new.fails ≡ self.old.fails }
        ensures calls { self.new.calls ≡ one_more self.old.calls }
        ensures faults { self.new.faults ≡ faults_after self.old.fails self.new.calls self.old.faults }
        ensures later { self.old.faults ≤ self.new.faults }
    {
        self.calls = self.calls.saturating_add(1);
        let failing = self.fails.as_slice().contains(&self.calls);
        if failing {
            self.faults = self.faults.saturating_add(1);
        }
        failing
    }
}
