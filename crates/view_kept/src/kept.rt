ghost use Rattle.std.specs.Prelude.{◌≡◌, ◌-◌, ℕ, List, [], false, length, take, drop, IfOk, OnOk};
ghost use Rattle.row_batch.specs.declared.change.RowChange.{RowChange as ChangeData};
ghost use Rattle.table_core.specs.Tables.{TableData};
ghost use Rattle.plan_types.specs.declared.plan.Plan.{Plan as PlanData};
ghost use Rattle.view_spec.specs.Laws.{HasKeys};
ghost use Rattle.view_spec.specs.Touching.{head_touched};
ghost use Rattle.view_spec.specs.Views.{Side, view};
ghost use Rattle.view_kept.specs.Steps.{IsOfTable, IsStep, side_at, side_of, touched_between};

use cell_core::{Memory, Steps};
use delta_core::{ShownNow, Touched};
use plan_types::Plan;
use row_batch::RowChange;
use std::alloc::Global;
use std::sync::ledger::Ledger;
use table_core::Table;
use view_shape::OpenState;
use view_types::ShownRows;

/// A view of a table's rows that is kept from step to step.
///
/// It stands for sides: columns, a plan, an opening and rows. What it shows is the view of each of them. That is a
/// relation, since different rows can show the same.
pub trait KeptView: ShownNow {
    ghost stands_for: { Self → Side → Type 0 };

    /// By which plans it can be made over, for the rows of a table.
    ghost fits: { Self → PlanData → TableData → Type 0 };

    /// How the counter of visits may stand before and after an `apply`, by the view before it, the changes and the table.
    ghost counts: { Self → List ChangeData → TableData → ℕ → ℕ → Type 0 };

    /// How many rows are shown.
    fn len(&self) -> usize
        ensures { result ≡ length (Self.shown self.now).rows };

    /// The rows at positions from `from` up to and without `to`, as far as there are any. Positions count from 0.
    /// Want of memory is the only refusal.
    fn window(&self, alloc: Global, from: u64, to: u64) -> Result<ShownRows, Memory>
        ensures { IfOk result (λ rows. rows ≡ take (to - from) (drop from (Self.shown self.now).rows)) };

    /// Brings the view to the table's rows, to which the changes led from those of a side that it stood for, and tells
    /// what that touched: each touched key beside whether it was shown before the step, and whether the header is
    /// another. `steps` counts the visits, as `counts` says, whatever is answered.
    ///
    /// Want of memory is the only refusal. After it nothing is said of the view, which is to be given up.
    fn apply<L: Ledger>(
        &mut self,
        alloc: Global,
        table: &Table,
        changes: &[RowChange],
        touched: &mut Touched,
        steps: &mut Steps<L>,
    ) -> Result<(), Memory>
        requires empty { touched.old.keys ≡ [] }
        requires clear { touched.old.header ≡ false }
        ensures stands { (s : Side) → stands_for self.old s → IsStep s changes.now table.now → OnOk result (stands_for self.new (side_at s table.now)) }
        ensures keys { (s : Side) → stands_for self.old s → IsStep s changes.now table.now → OnOk result (touched.new.keys ≡ touched_between s (side_at s table.now)) }
        ensures header { (s : Side) → stands_for self.old s → IsStep s changes.now table.now → OnOk result (touched.new.header ≡ head_touched s (side_at s table.now)) }
        ensures steps { counts self.old changes.now table.now steps.old steps.new };

    /// The view of the same rows by another plan or another opening, and what that touches. This view stays as it is.
    ///
    /// Want of memory is the only refusal.
    fn reshape<L: Ledger>(
        &self,
        alloc: Global,
        plan: Plan,
        opening: &OpenState,
        table: &Table,
        touched: &mut Touched,
        steps: &mut Steps<L>,
    ) -> Result<Self, Memory>
        requires fit { fits self.now plan table.now }
        requires empty { touched.old.keys ≡ [] }
        requires clear { touched.old.header ≡ false }
        ensures stands { IfOk result (λ other. stands_for other (side_of plan opening.now table.now)) }
        ensures keys { (s : Side) → stands_for self.now s → IsOfTable s table.now → OnOk result (touched.new.keys ≡ touched_between s (side_of plan opening.now table.now)) }
        ensures header { (s : Side) → stands_for self.now s → IsOfTable s table.now → OnOk result (touched.new.header ≡ head_touched s (side_of plan opening.now table.now)) };

    ghost shows: { (v : Self) (s : Side) → stands_for v s → HasKeys s → Self.shown v ≡ view s };
}
