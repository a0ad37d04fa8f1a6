ghost use Rattle.std.specs.Prelude.{◌≡◌, IfOk};
ghost use Rattle.hub_spec.specs.Answers.{window};

use cell_core::Memory;
use std::alloc::Global;
use view_kept::KeptView;
use view_types::Shown;

/// The rows of a view at positions from `from` up to and without `to`, under its header.
pub fn show_window<V: KeptView>(
    alloc: Global,
    rows: &V,
    from: u64,
    to: u64,
) -> Result<Shown, Memory>
    ensures { IfOk result (λ shown. shown ≡ window from to (V.shown rows.now)) }
{
    Ok(Shown {
        header: rows.header(alloc)?,
        rows: rows.window(alloc, from, to)?,
    })
}

/// All that a view shows.
pub fn show_all<V: KeptView>(alloc: Global, rows: &V) -> Result<Shown, Memory>
    ensures { IfOk result (λ shown. shown ≡ V.shown rows.now) }
{
    show_window(alloc, rows, 0, rows.len() as u64)
}
