ghost use Rattle.std.specs.Prelude.{◌≡◌, IfOk};
ghost use Rattle.csv.specs.Reading.{default_config, records, strip_bom};
ghost use Rattle.csv.specs.Records.{fields_of};

use cell_core::{Listed, Memory, Text, Texts};
use csv::{ReaderBuilder, StringRecord};
use std::alloc::Global;

/// Every record of a text, as `csv` reads it with its defaults, whatever the lengths of the records.
pub(crate) fn records(alloc: Global, text: &Text) -> Result<Listed<Texts>, Memory>
    ensures { IfOk result (λ found. found ≡ records default_config (strip_bom text.now)) }
{
    let reader = ReaderBuilder::new()
        .has_headers(false)
        .flexible(true)
        .from_reader(alloc, text.as_str().as_bytes());
    let mut found = Listed::new(alloc);
    for row in reader.into_records() {
        // Reading a text in memory has no fault, and its fields are texts: memory alone can be wanting.
        match row {
            Ok(row) => found.push(fields(alloc, &row)?)?,
            Err(_) => return Err(Memory),
        }
    }
    Ok(found)
}

fn fields(alloc: Global, row: &StringRecord) -> Result<Texts, Memory>
    ensures { IfOk result (λ texts. texts ≡ fields_of row.now) }
{
    let mut texts = Listed::new(alloc);
    for field in row {
        texts.push(Text::from_str(alloc, field)?)?;
    }
    Ok(texts)
}
