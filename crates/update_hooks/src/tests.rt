ghost use Rattle.std.specs.Prelude.{◌≡◌};

use crate::{EndJob, Hears, Hook, Hooks, Job, Notice, TallyHook, ViewEnd};
use std::sync::Arc;
use std::sync::atomic::{AtomicU64, Ordering};
use std::test::Fail;

/// A hook to which no notice makes a difference.
#[derive(Drop)]
struct Quiet {}

impl Hears for Quiet {
    ghost next = { λ quiet _. quiet };

    fn take_in(&mut self, _notice: &Notice) {}
}

#[test]
fn a_job_is_called_once(rt: HostRuntime) -> Result<(), Fail> {
    let alloc = rt.alloc();
    let calls = Arc::new(alloc, AtomicU64::new(0))?;
    let shared = Arc::try_clone(&calls)?;
    let run: Job = Box::new(
        alloc,
        move |end: ViewEnd| -> u64
            ensures { result ≡ end.version }
        {
            shared.fetch_add(1, Ordering::SeqCst);
            end.version
        },
    )?;
    let mut hooks: Hooks<Quiet, EndJob> = Hooks::make(alloc);
    assert!(rt; hooks.add_end(0, 1, EndJob::make(run)).is_ok());
    let other = ViewEnd {
        session: 0,
        view: 0,
        version: 5,
    };
    hooks.end_view(other);
    assert_eq!(rt; calls.load(Ordering::SeqCst), 0);
    let end = ViewEnd {
        session: 0,
        view: 1,
        version: 2,
    };
    hooks.end_view(end);
    hooks.end_view(end);
    assert_eq!(rt; calls.load(Ordering::SeqCst), 1);
    assert_eq!(rt; hooks.ended(0), Some(end));
    assert_eq!(rt; hooks.ended(1), None);
    Ok(())
}

#[test]
fn a_sum_ends_at_the_greatest_number(rt: HostRuntime) -> Result<(), Fail> {
    let mut hooks: Hooks<Quiet, EndJob> = Hooks::make(rt.alloc());
    assert!(rt; hooks.add(Quiet {}).is_ok());
    let all = Notice {
        session: 0,
        view: 0,
        version: 2,
        port: 0,
        touched: u64::MAX,
    };
    hooks.call_all(&all);
    hooks.call_all(&Notice { touched: 1, ..all });
    assert_eq!(rt; hooks.tally(0), Some(2));
    assert_eq!(rt; hooks.tally(1), None);
    let mut tally = TallyHook::make();
    tally.hear(&all);
    tally.hear(&Notice {
        version: 3,
        touched: 1,
        ..all
    });
    assert_eq!(rt; tally.touched, u64::MAX);
    assert_eq!(rt; tally.number, 2);
    assert_eq!(rt; tally.last, 3);
    Ok(())
}
