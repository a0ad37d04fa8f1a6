ghost use Rattle.std.specs.Prelude.{◌≡◌, IfOk, IsTrue};

use cell_core::{Column, Copies, Memory};
use std::alloc::Global;

/// Copies of a table's columns, in the same order. Want of memory is the only refusal.
pub fn columns_copied(alloc: Global, columns: &[Column]) -> Result<Vec<Column>, Memory>
    ensures { IfOk result (λ copies. copies.items ≡ columns.now) }
{
    let mut copies = Vec::with_capacity(alloc, columns.len())?;
    for column in columns {
        copies.push(Column {
            name: column.name.copy(alloc)?,
            kind: column.kind,
        })?;
    }
    Ok(copies)
}

/// Whether columns have the same names and types, in the same order.
pub fn same_columns(a: &[Column], b: &[Column]) -> bool
    ensures { IsTrue result → a.now ≡ b.now }
{
    if a.len() != b.len() {
        return false;
    }
    for i in 0..a.len() {
        if !same_column(&a[i], &b[i]) {
            return false;
        }
    }
    true
}

/// Whether two columns have the same name and type.
fn same_column(a: &Column, b: &Column) -> bool
    ensures { IsTrue result → a.now ≡ b.now }
{
    a.kind == b.kind && a.name.as_str() == b.name.as_str()
}
