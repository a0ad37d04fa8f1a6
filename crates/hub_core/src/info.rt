ghost use Rattle.std.specs.Prelude.{◌≡◌, ℕ, map, IfOk};
ghost use Rattle.frame_types.specs.Asks as ask;
ghost use Rattle.frame_types.specs.ReplyData.{EndsAt};
ghost use Rattle.hub_spec.specs.Answers as answers;
ghost use Rattle.hub_spec.specs.Giving.{AnswersAfter, body_in};
ghost use Rattle.hub_core.specs.Holding.{HoldsAll};

use crate::engine::Engine;
use crate::refused;
use cell_core::{Column, ColumnWords, Columns, Copies, Keeping, Listed, Memory, Schema, Text};
use frame_types::{Body, Refusal};
use std::alloc::Global;

impl Engine {
    /// Tells of the table.
    pub fn info(&self) -> Result<Body, Refusal>
        ensures gives { (session : ℕ) → AnswersAfter (HoldsAll self.now) session ask.info (body_in result) (HoldsAll self.now) }
        ensures ends { (at : ℕ) → EndsAt at (body_in result) }
    {
        let schema = self.table.schema();
        let Ok(columns) = column_words(self.alloc, schema.columns()) else {
            return Err(refused::memory());
        };
        let Ok(index) = index_name(self.alloc, schema) else {
            return Err(refused::memory());
        };
        Ok(Body::Info {
            columns,
            index,
            limit: limit_of(schema),
            size: self.table.len() as u64,
            waiting: self.ports.batches_waiting(),
        })
    }
}

/// The columns as they are asked for: their names, and the names of their types.
fn column_words(alloc: Global, columns: &[Column]) -> Result<Columns, Memory>
    ensures { IfOk result (λ words. words ≡ map answers.column_words columns.now) }
{
    let mut words = Vec::new(alloc);
    for column in columns {
        words.push(words_of(alloc, column)?)?;
    }
    Ok(Listed::from_vec(words))
}

fn words_of(alloc: Global, column: &Column) -> Result<ColumnWords, Memory>
    ensures { IfOk result (λ words. words ≡ answers.column_words column.now) }
{
    Ok(ColumnWords {
        name: column.name.copy(alloc)?,
        kind: Text::from_str(alloc, column.kind.name())?,
    })
}

/// The name of the column that is the primary key.
fn index_name(alloc: Global, schema: &Schema) -> Result<Option<Text>, Memory>
    ensures { IfOk result (λ name. name ≡ answers.index_name schema.now schema.now.keeping) }
{
    match schema.keeping() {
        Keeping::Indexed(column) => Ok(Some(schema.name(column).copy(alloc)?)),
        Keeping::Limited(_) | Keeping::Free => Ok(None),
    }
}

/// The most rows of a table that has a limit.
fn limit_of(schema: &Schema) -> Option<u64>
    ensures { result ≡ answers.limit_in schema.now.keeping }
{
    match schema.keeping() {
        Keeping::Limited(slots) => Some(slots as u64),
        Keeping::Indexed(_) | Keeping::Free => None,
    }
}
