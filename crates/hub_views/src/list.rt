ghost use Rattle.std.specs.Prelude.{◌≡◌, ◌==◌, ◌+◌, ◌≤◌, ◌++◌, filter, find, length, map, not, position};
ghost use Rattle.std.specs.Option.{option_copied};
ghost use Rattle.std.specs.Vec.{vec_len, vec_capacity};
ghost use Rattle.hub_views.specs.Keeping.{is_kept};
ghost use Rattle.hub_views.specs.Live.{rebased_at};
ghost use Rattle.hub_views.specs.Refreshing.{AreRefreshed, losses};

use crate::view::View;
use cell_core::Steps;
use delta_core::Mark;
use row_batch::RowChange;
use std::alloc::Global;
use std::sync::ledger::Ledger;
use table_core::Table;

/// The view that the session holds under a number.
pub fn find_view(views: &[View], session: u32, number: u64) -> Option<&View>
    ensures { option_copied result ≡ find (is_kept session number) views.now }
{
    views
        .iter()
        .find(|view| view.session == session && view.number == number)
}

/// The place of the view that the session holds under a number.
pub fn place_of(views: &[View], session: u32, number: u64) -> Option<usize>
    ensures { result ≡ position (is_kept session number) views.now }
{
    views
        .iter()
        .position(|view| view.session == session && view.number == number)
}

/// Makes a mark the base of the view that the session holds under a number, if it can still be asked.
pub fn rebase(views: &mut Vec<View>, session: u32, number: u64, mark: Mark)
    ensures { views.new.items ≡ map (rebased_at session number mark) views.old.items }
{
    for view in views.iter_mut() {
        view.rebase_at(session, number, mark);
    }
}

/// Drops the view that the session holds under a number.
pub fn drop_view(views: &mut Vec<View>, session: u32, number: u64)
    ensures { views.new.items ≡ filter (λ v. not (is_kept session number v)) views.old.items }
{
    views.retain(|view| !(view.session == session && view.number == number));
}

/// How many views the session holds.
pub fn count_views(views: &[View], session: u32) -> usize
    ensures { result ≡ length (filter (λ v. v.session == session) views.now) }
{
    views.iter().filter(|view| view.session == session).count()
}

/// Drops all views that the session holds.
pub fn drop_views(views: &mut Vec<View>, session: u32)
    ensures { views.new.items ≡ filter (λ v. not (v.session == session)) views.old.items }
{
    views.retain(|view| view.session != session);
}

/// Brings each view to the table's rows, to which the changes led, and adds the names of those that are lost by that
/// to a list that has room for them.
pub fn refresh_each<L: Ledger>(
    alloc: Global,
    table: &Table,
    changes: &[RowChange],
    version: u64,
    views: &mut Vec<View>,
    lost: &mut Vec<(u32, u64)>,
    steps: &mut Steps<L>,
)
    requires { vec_len lost.old + vec_len views.old ≤ vec_capacity lost.old }
    ensures refreshed { AreRefreshed changes.now table.now version views.old.items views.new.items }
    ensures lost { lost.new.items ≡ lost.old.items ++ losses views.old.items views.new.items }
{
    for view in views.iter_mut() {
        if view.refresh(alloc, table, changes, version, steps) {
            lost.push_reserved((view.session, view.number));
        }
    }
}
