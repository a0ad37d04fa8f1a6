ghost use Rattle.std.specs.Prelude.{◌≡◌, ◌+◌, ◌≤◌, vec_len, vec_capacity, ◌++◌, ◌∷◌, [], not, map, filter, slice_get, OnOk, OnErr, IfErr};
ghost use Rattle.std.specs.Option.{option_map};
ghost use Rattle.update_hooks.specs.Heard.{heard};
ghost use Rattle.update_hooks.specs.Booked.{is_of};

use crate::booked::{Booked, take_first};
use crate::end_job::Ends;
use crate::hook::{Hears, TalliedHook, tell};
use crate::notice::{Notice, ViewEnd};
use plain_data::Memory;
use std::alloc::Global;

/// The hooks, the jobs that wait for a view's end and the ends for which jobs were called.
#[derive(Drop)]
pub struct Hooks<H, J> {
    hooks: Vec<TalliedHook<H>>,
    jobs: Vec<Booked<J>>,
    ended: Vec<ViewEnd>,
    ghost room: { vec_len ended + vec_len jobs ≤ vec_capacity ended },
}

/// Tells each hook of a notice, in order.
fn tell_all<H: Hears>(hooks: &mut Vec<TalliedHook<H>>, notice: &Notice)
    ensures { hooks.new.items ≡ map (heard (λ hook. H.next hook notice.now)) hooks.old.items }
{
    'hooks: for told in hooks.iter_mut() {
        tell(told, notice);
    }
}

impl<H: Hears, J: Ends> Hooks<H, J> {
    /// No hooks and no jobs. It takes no memory.
    pub fn make(alloc: Global) -> Hooks<H, J>
        ensures hooks { result.hooks.items ≡ [] }
        ensures jobs { result.jobs.items ≡ [] }
        ensures ended { result.ended.items ≡ [] }
    {
        Hooks {
            hooks: Vec::new(alloc),
            jobs: Vec::new(alloc),
            ended: Vec::new(alloc),
        }
    }

    /// Adds a hook behind the others. Want of memory is the only refusal; it hands the hook back, and nothing changed.
    pub fn add(&mut self, hook: H) -> Result<(), (Memory, H)>
        ensures ok { OnOk result (self.new.hooks.items ≡ self.old.hooks.items ++ record { hook = hook; tally = 0 } ∷ []) }
        ensures err { IfErr result (λ e. (self.new.hooks.items ≡ self.old.hooks.items) × (e.1 ≡ hook)) }
        ensures jobs { self.new.jobs.items ≡ self.old.jobs.items }
        ensures ended { self.new.ended.items ≡ self.old.ended.items }
    {
        match self.hooks.push(TalliedHook { hook, tally: 0 }) {
            Ok(()) => Ok(()),
            Err(refused) => {
                let TalliedHook { hook, tally: _ } = refused.value;
                Err((Memory, hook))
            }
        }
    }

    /// Tells each hook of a notice, in the order in which they were added. It takes no memory.
    pub fn call_all(&mut self, notice: &Notice)
        ensures hooks { self.new.hooks.items ≡ map (heard (λ hook. H.next hook notice.now)) self.old.hooks.items }
        ensures jobs { self.new.jobs.items ≡ self.old.jobs.items }
        ensures ended { self.new.ended.items ≡ self.old.ended.items }
    {
        tell_all(&mut self.hooks, notice);
    }

    /// Keeps a job for the end of a view, and room for its answer. Want of memory is the only refusal; it hands the job
    /// back, and nothing changed but the room.
    pub fn add_end(&mut self, session: u32, view: u64, job: J) -> Result<(), (Memory, J)>
        ensures ok { OnOk result (self.new.jobs.items ≡ self.old.jobs.items ++ record { session = session; view = view; job = job } ∷ []) }
        ensures err { IfErr result (λ e. (self.new.jobs.items ≡ self.old.jobs.items) × (e.1 ≡ job)) }
        ensures hooks { self.new.hooks.items ≡ self.old.hooks.items }
        ensures ended { self.new.ended.items ≡ self.old.ended.items }
    {
        if self.ended.reserve(self.jobs.len() + 1).is_err() {
            return Err((Memory, job));
        }
        match self.jobs.push(Booked { session, view, job }) {
            Ok(()) => Ok(()),
            Err(refused) => {
                let Booked {
                    session: _,
                    view: _,
                    job,
                } = refused.value;
                Err((Memory, job))
            }
        }
    }

    /// Calls the jobs of a view that ended, each once, in the order in which they were added, and keeps their answers. It
    /// takes no memory.
    pub fn end_view(&mut self, end: ViewEnd)
        ensures jobs { self.new.jobs.items ≡ filter (λ booked. not (is_of end.session end.view booked)) self.old.jobs.items }
        ensures ended { self.new.ended.items ≡ self.old.ended.items ++ map (λ _. end) (filter (is_of end.session end.view) self.old.jobs.items) }
        ensures hooks { self.new.hooks.items ≡ self.old.hooks.items }
    {
        'jobs: while let Some(job) = take_first(&mut self.jobs, end.session, end.view) {
            let version = job.call(end);
            self.ended.push_reserved(ViewEnd {
                session: end.session,
                view: end.view,
                version,
            });
        }
    }

    /// How many notices the hook that was added as the `i`th has heard, counted from 0; none where there is no such hook.
    /// The count ends at `u64::MAX`.
    pub fn tally(&self, i: usize) -> Option<u64>
        ensures { result ≡ option_map (λ told. told.tally) (slice_get self.now.hooks.items i) }
    {
        match self.hooks.get(i) {
            Some(told) => Some(told.tally),
            None => None,
        }
    }

    /// The end for which the `i`th of the called jobs was called, counted from 0, with the job's answer as its version.
    pub fn ended(&self, i: usize) -> Option<ViewEnd>
        ensures { result ≡ slice_get self.now.ended.items i }
    {
        self.ended.get(i).copied()
    }
}
