ghost use Rattle.std.specs.Prelude.{◌≡◌};

use crate::notice::ViewEnd;

/// What is called at a view's end.
pub type Job = Box<dyn FnOnce(ViewEnd) -> u64 + Send>;

/// A job that may be called for every view end, and answers that end's version.
#[derive(Drop)]
pub struct EndJob {
    run: Job,
    ghost ready: { IsAlwaysCallable run },
    ghost answers: { (end : _) (answer : _) → post run end answer → answer ≡ end.version },
}

impl EndJob {
    /// The job of a call that may be made for every end and answers that end's version.
    pub fn make(run: Job) -> EndJob
        requires ready { IsAlwaysCallable run }
        requires answers { (end : _) (answer : _) → post run end answer → answer ≡ end.version }
    {
        EndJob { run }
    }
}

/// What is called at a view's end, and is gone then. It answers that end's version.
pub trait Ends {
    fn call(self, end: ViewEnd) -> u64
        ensures { result ≡ end.version };
}

impl Ends for EndJob {
    fn call(self, end: ViewEnd) -> u64 {
        let EndJob { run } = self;
        run(end)
    }
}
