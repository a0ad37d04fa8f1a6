use crate::turning::{after_flat, after_plain};
use cell_core::{Memory, Steps};
use delta_core::{ShownNow, Touched};
use flat_live::FlatLive;
use plain_kept::PlainView;
use plan_types::Plan;
use row_batch::RowChange;
use std::alloc::Global;
use std::sync::ledger::Ledger;
use table_core::Table;
use view_kept::KeptView;
use view_shape::OpenState;
use view_types::{Header, ShownRow, ShownRows, ViewKey};

/// The rows of a view, kept in the way that its plan allows: those of a flat view by the changes of the table's rows,
/// those of a view with groups computed anew at each step.
#[derive(Drop)]
pub enum LiveRows {
    Flat(FlatLive),
    Plain(PlainView),
}

impl LiveRows {
    ghost use Rattle.std.specs.Prelude.{◌≡◌, [], false, IfOk, OnOk, unwrap_or};
    ghost use Rattle.view_kept.specs.Steps.{IsOfTable, side_of, touched_between};
    ghost use Rattle.view_spec.specs.Touching.{head_touched};
    ghost use Rattle.view_spec.specs.Views.{Side};
    ghost use Rattle.live_rows.specs.Live.{StandsLive};

    /// The plan that they are a view by.
    pub fn plan(&self) -> &Plan
        ensures { (s : Side) → StandsLive self.now s → result.now ≡ s.plan }
    {
        match self {
            LiveRows::Flat(view) => &view.plan,
            LiveRows::Plain(view) => view.plan(),
        }
    }

    /// The view of the same rows by the same plan and another opening, and what that touches; none where it is kept by the
    /// changes, since a flat view shows the same under every opening. This view stays as it is.
    ///
    /// Want of memory is the only refusal.
    pub fn reopened<L: Ledger>(
        &self,
        alloc: Global,
        opening: &OpenState,
        table: &Table,
        touched: &mut Touched,
        steps: &mut Steps<L>,
    ) -> Result<Option<LiveRows>, Memory>
        requires empty { touched.old.keys ≡ [] }
        requires clear { touched.old.header ≡ false }
        ensures stands { (s : Side) → StandsLive self.now s → IsOfTable s table.now → IfOk result (λ other. StandsLive (unwrap_or other self.now) (side_of s.plan opening.now table.now)) }
        ensures keys { (s : Side) → StandsLive self.now s → IsOfTable s table.now → OnOk result (touched.new.keys ≡ touched_between s (side_of s.plan opening.now table.now)) }
        ensures header { (s : Side) → StandsLive self.now s → IsOfTable s table.now → OnOk result (touched.new.header ≡ head_touched s (side_of s.plan opening.now table.now)) }
    {
        match self {
            LiveRows::Flat(_) => Ok(None),
            LiveRows::Plain(view) => {
                let other = view.reopened(alloc, opening, table, touched, steps)?;
                Ok(Some(LiveRows::Plain(other)))
            }
        }
    }
}

impl ShownNow for LiveRows {
    ghost use Rattle.live_rows.specs.Live.{live_shown};

    ghost shown = { live_shown };

    fn position(&self, key: &ViewKey) -> Option<usize> {
        match self {
            LiveRows::Flat(view) => view.position(key),
            LiveRows::Plain(view) => view.position(key),
        }
    }

    fn row(&self, alloc: Global, key: &ViewKey) -> Result<Option<ShownRow>, Memory> {
        match self {
            LiveRows::Flat(view) => view.row(alloc, key),
            LiveRows::Plain(view) => view.row(alloc, key),
        }
    }

    fn header(&self, alloc: Global) -> Result<Header, Memory> {
        match self {
            LiveRows::Flat(view) => view.header(alloc),
            LiveRows::Plain(view) => view.header(alloc),
        }
    }
}

impl KeptView for LiveRows {
    ghost use Rattle.live_rows.specs.Live.{StandsLive, counts_live, fits_live, shows_live};

    ghost stands_for = { StandsLive };

    ghost fits = { fits_live };

    ghost counts = { counts_live };

    fn len(&self) -> usize {
        match self {
            LiveRows::Flat(view) => view.len(),
            LiveRows::Plain(view) => view.len(),
        }
    }

    fn window(&self, alloc: Global, from: u64, to: u64) -> Result<ShownRows, Memory> {
        match self {
            LiveRows::Flat(view) => view.window(alloc, from, to),
            LiveRows::Plain(view) => view.window(alloc, from, to),
        }
    }

    fn apply<L: Ledger>(
        &mut self,
        alloc: Global,
        table: &Table,
        changes: &[RowChange],
        touched: &mut Touched,
        steps: &mut Steps<L>,
    ) -> Result<(), Memory> {
        match self {
            LiveRows::Flat(view) => view.apply(alloc, table, changes, touched, steps),
            LiveRows::Plain(view) => view.apply(alloc, table, changes, touched, steps),
        }
    }

    fn reshape<L: Ledger>(
        &self,
        alloc: Global,
        plan: Plan,
        opening: &OpenState,
        table: &Table,
        touched: &mut Touched,
        steps: &mut Steps<L>,
    ) -> Result<LiveRows, Memory> {
        match self {
            LiveRows::Flat(view) => after_flat(alloc, view, plan, opening, table, touched, steps),
            LiveRows::Plain(view) => {
                after_plain(alloc, view, plan, opening, table, touched, steps)
            }
        }
    }

    ghost shows = { shows_live };
}
