use cell_core::{ColumnWords, Columns, Listed, Memory, Text};
use std::alloc::Global;

fn column(alloc: Global, name: &str, kind: &str) -> Result<ColumnWords, Memory> {
    let name = Text::from_str(alloc, name)?;
    let kind = Text::from_str(alloc, kind)?;
    Ok(ColumnWords { name, kind })
}

/// Columns of these names and types.
pub fn columns(alloc: Global, words: &[(&str, &str)]) -> Result<Columns, Memory> {
    let mut columns = Listed::new(alloc);
    for (name, kind) in words {
        columns.push(column(alloc, name, kind)?)?;
    }
    Ok(columns)
}
