ghost use Rattle.std.specs.Prelude.{◌≡◌, ◌<◌, ◌≤◌, [], ◌∷◌, length, position, slice_get, option_map, Some, IfOk, IfErr};
ghost use Rattle.std.specs.Str.{bytes_eq};
ghost use Rattle.plain_data.specs.Faults.{first_fault};
ghost use Rattle.cell_core.specs.Schemas.{IsSchema, type_named, type_name, column_faults, keeping_faults, schema_faults, keeping_of, typed_columns, outcome_of, schema_of, is_named, RefusesSchema, IsKeeping};

use crate::cell::CellType;
use crate::limits::{MAX_COLUMNS, MAX_NAME, MAX_ROWS};
use plain_data::{Listed, Memory, Text};
use std::alloc::Global;
use std::fmt;
use std::marker::Model;

/// The numbers that say where a refusal found its cause. They are written behind the cause, as `: 3, 1`.
#[derive(Clone, Copy, Debug, Drop, PartialEq, Eq)]
pub enum Numbers {
    Zero,
    One(u64),
    Two(u64, u64),
}

/// A column as it is asked for: its name, and the name of its type.
#[derive(Debug, Drop)]
pub struct ColumnWords {
    pub name: Text,
    pub kind: Text,
}

/// Columns as they are asked for, in the order of the table.
pub type Columns = Listed<ColumnWords>;

/// A column of a table.
#[derive(Debug, Drop)]
pub struct Column {
    pub name: Text,
    pub kind: CellType,
}

/// What rows are kept under.
#[derive(Clone, Copy, Debug, Drop, PartialEq, Eq)]
pub enum Keeping {
    /// Under their cell in the column of this number, which is their primary key.
    Indexed(usize),
    /// In so many slots, from 1 to 65,536, of which the next row takes the oldest.
    Limited(u32),
    /// Under their running number, from 0.
    Free,
}

/// Why a schema is refused. The causes on one column are tested in this order for each column
/// before the next.
#[derive(Clone, Copy, Debug, Drop, PartialEq, Eq)]
pub enum SchemaCause {
    NoColumns,
    /// `at` has the number of columns.
    TooManyColumns,
    /// `at` has the column's number, as in the next two.
    NameLength,
    BadType,
    Twice,
    IndexAndLimit,
    Index,
    Limit,
}

/// Why there is no schema: the first cause against it, or want of memory.
#[derive(Clone, Copy, Debug, Drop, PartialEq, Eq)]
pub enum SchemaRefused {
    Bad { cause: SchemaCause, at: Numbers },
    Memory,
}

impl fmt::Display for Numbers {
    fn fmt<W: fmt::Write>(&self, f: &mut fmt::Formatter<W>) -> fmt::Result {
        match self {
            Numbers::Zero => Ok(()),
            Numbers::One(first) => write!(f, ": {first}"),
            Numbers::Two(first, second) => write!(f, ": {first}, {second}"),
        }
    }
}

impl fmt::Display for SchemaCause {
    fn fmt<W: fmt::Write>(&self, f: &mut fmt::Formatter<W>) -> fmt::Result {
        f.write_str(match self {
            SchemaCause::NoColumns => "no columns",
            SchemaCause::TooManyColumns => "more than 32 columns",
            SchemaCause::NameLength => "a column's name is empty or has more than 256 bytes",
            SchemaCause::BadType => "a column's type is none",
            SchemaCause::Twice => "a column's name stands twice",
            SchemaCause::IndexAndLimit => "both an index and a limit",
            SchemaCause::Index => "the index is no column",
            SchemaCause::Limit => "the limit is not from 1 to 65536",
        })
    }
}

impl fmt::Display for SchemaRefused {
    fn fmt<W: fmt::Write>(&self, f: &mut fmt::Formatter<W>) -> fmt::Result {
        match self {
            SchemaRefused::Bad { cause, at } => write!(f, "{cause}{at}"),
            SchemaRefused::Memory => write!(f, "{}", Memory),
        }
    }
}

impl From<Memory> for SchemaRefused {
    ghost use Rattle.std.specs.Prelude.{◌≡◌};
    ghost use Rattle.cell_core.specs.declared.schema.SchemaRefused.TheVariants as refused;

    ghost from_gives = { λ want made. made ≡ refused.Memory };

    fn from(_refused: Memory) -> SchemaRefused {
        SchemaRefused::Memory
    }
}

impl Keeping {
    ghost use Rattle.std.specs.Prelude.{◌≡◌, ◌↔◌, IsTrue};
    ghost use Rattle.cell_core.specs.Keepings.{IsIndexed, is_indexed, key_column, is_key_column};

    /// Whether rows are kept under an index column.
    pub fn is_indexed(self) -> bool
        ensures value { result ≡ is_indexed self }
        ensures indexed { IsTrue result ↔ IsIndexed self }
    {
        matches!(self, Keeping::Indexed(_))
    }

    /// The number of the index column.
    pub fn key_column(self) -> Option<usize>
        ensures { result ≡ key_column self }
    {
        match self {
            Keeping::Indexed(column) => Some(column),
            Keeping::Limited(_) | Keeping::Free => None,
        }
    }

    /// Whether that column is the index column.
    pub fn is_key_column(self, column: usize) -> bool
        ensures { result ≡ is_key_column self column }
    {
        match self {
            Keeping::Indexed(key) => column == key,
            Keeping::Limited(_) | Keeping::Free => false,
        }
    }
}

impl CellType {
    /// The type of a type name: `integer`, `boolean`, `date`, `datetime` or `string`.
    pub fn named(name: &str) -> Option<CellType>
        ensures { result ≡ type_named name.now }
    {
        match name {
            "integer" => Some(CellType::Integer),
            "boolean" => Some(CellType::Boolean),
            "date" => Some(CellType::Date),
            "datetime" => Some(CellType::Moment),
            "string" => Some(CellType::Words),
            _ => None,
        }
    }

    /// The name of the type, as in a request.
    pub fn name(self) -> &'static str
        ensures { result.now ≡ type_name self }
    {
        match self {
            CellType::Integer => "integer",
            CellType::Boolean => "boolean",
            CellType::Date => "date",
            CellType::Moment => "datetime",
            CellType::Words => "string",
        }
    }
}

/// A table's columns, from 1 to 32, and what its rows are kept under.
#[derive(Debug, Drop)]
pub struct Schema {
    columns: Listed<Column>,
    keeping: Keeping,
}

impl Model for Schema {
    ghost use Rattle.cell_core.specs.Schemas.{SchemaData, IsSchema};

    ghost Value = { SchemaData };

    ghost view = { λ s. record { columns = s.columns; keeping = s.keeping } };

    ghost invariant = { λ s. IsSchema (record { columns = s.columns; keeping = s.keeping }) };
}

impl Schema {
    /// The schema of these columns, or the first cause against it.
    pub fn make(
        alloc: Global,
        columns: Columns,
        index: Option<Text>,
        limit: Option<i64>,
    ) -> Result<Schema, SchemaRefused>
        ensures ok { IfOk result (λ schema. schema_of columns index limit ≡ Ok schema) }
        ensures err { IfErr result (RefusesSchema (schema_of columns index limit)) }
    {
        let keeping = match decided(columns.as_slice(), index, limit) {
            Ok(keeping) => keeping,
            Err(refused) => return Err(refused),
        };
        let columns = typed(alloc, columns)?;
        Ok(Schema { columns, keeping })
    }

    /// The number of columns.
    pub fn width(&self) -> usize
        ensures width { result ≡ length self.now.columns }
        ensures some { 0 < result }
        ensures few { result ≤ MAX_COLUMNS }
    {
        self.columns.len()
    }

    /// The name of column `i`.
    pub fn name(&self, i: usize) -> &Text
        requires { i < length self.now.columns }
        ensures { option_map (λ c. c.name) (slice_get self.now.columns i) ≡ Some result.now }
    {
        &self.columns.as_slice()[i].name
    }

    /// The type of column `i`.
    pub fn type_of(&self, i: usize) -> CellType
        requires { i < length self.now.columns }
        ensures { option_map (λ c. c.kind) (slice_get self.now.columns i) ≡ Some result }
    {
        self.columns.as_slice()[i].kind
    }

    /// The columns in their order. Their names are distinct.
    pub fn columns(&self) -> &[Column]
        ensures { result.now ≡ self.now.columns }
    {
        self.columns.as_slice()
    }

    /// What the rows are kept under.
    pub fn keeping(&self) -> Keeping
        ensures keeping { result ≡ self.now.keeping }
        ensures fits { IsKeeping (length self.now.columns) result }
        ensures schema { IsSchema self.now }
    {
        self.keeping
    }

    /// The number of the column of that name.
    pub fn find(&self, name: &Text) -> Option<usize>
        ensures { result ≡ position (λ c. bytes_eq c.name name.now) self.now.columns }
    {
        self.columns
            .as_slice()
            .iter()
            .position(|column| column.name.as_str() == name.as_str())
    }
}

fn bad(cause: SchemaCause, at: Numbers) -> SchemaRefused
    ensures { result ≡ SchemaRefused.Bad cause at }
{
    SchemaRefused::Bad { cause, at }
}

/// What the rows are kept under, or the first cause against the schema.
fn decided(
    words: &[ColumnWords],
    index: Option<Text>,
    limit: Option<i64>,
) -> Result<Keeping, SchemaRefused>
    ensures { result ≡ outcome_of (first_fault (schema_faults words.now index limit)) (keeping_of words.now index limit) }
{
    if words.is_empty() {
        return Err(bad(SchemaCause::NoColumns, Numbers::Zero));
    }
    if words.len() > MAX_COLUMNS {
        let count = Numbers::One(words.len() as u64);
        return Err(bad(SchemaCause::TooManyColumns, count));
    }
    match bad_column(words) {
        Some(refused) => Err(refused),
        None => kept_under(words, index, limit),
    }
}

/// The first column that is refused.
fn bad_column(words: &[ColumnWords]) -> Option<SchemaRefused>
    requires { length words.now ≤ MAX_COLUMNS }
    ensures { result ≡ first_fault (column_faults [] 0 words.now) }
{
    for i in 0..words.len() {
        let refused = column_fault(&words[..i], i as u64, &words[i]);
        if refused.is_some() {
            return refused;
        }
    }
    None
}

fn column_fault(before: &[ColumnWords], i: u64, column: &ColumnWords) -> Option<SchemaRefused>
    ensures { result ≡ first_fault (column_faults before.now i (column.now ∷ [])) }
{
    let size = column.name.as_str().len();
    if size == 0 || size > MAX_NAME {
        return Some(bad(SchemaCause::NameLength, Numbers::One(i)));
    }
    if CellType::named(column.kind.as_str()).is_none() {
        return Some(bad(SchemaCause::BadType, Numbers::One(i)));
    }
    if place_of(before, &column.name).is_some() {
        return Some(bad(SchemaCause::Twice, Numbers::One(i)));
    }
    None
}

fn place_of(words: &[ColumnWords], name: &Text) -> Option<usize>
    ensures { result ≡ position (is_named name.now) words.now }
{
    words
        .iter()
        .position(|column| column.name.as_str() == name.as_str())
}

fn kept_under(
    words: &[ColumnWords],
    index: Option<Text>,
    limit: Option<i64>,
) -> Result<Keeping, SchemaRefused>
    ensures { result ≡ outcome_of (first_fault (keeping_faults words.now index limit)) (keeping_of words.now index limit) }
{
    match (index, limit) {
        (Some(_), Some(_)) => Err(bad(SchemaCause::IndexAndLimit, Numbers::Zero)),
        (Some(name), None) => match place_of(words, &name) {
            Some(place) => Ok(Keeping::Indexed(place)),
            None => Err(bad(SchemaCause::Index, Numbers::Zero)),
        },
        (None, Some(limit)) => {
            if limit < 1 || limit > MAX_ROWS as i64 {
                return Err(bad(SchemaCause::Limit, Numbers::Zero));
            }
            Ok(Keeping::Limited(limit as u32))
        }
        (None, None) => Ok(Keeping::Free),
    }
}

/// The columns with their types. A column without one would be left out.
fn typed(alloc: Global, columns: Columns) -> Result<Listed<Column>, Memory>
    ensures { IfOk result (λ made. made ≡ typed_columns columns) }
{
    let mut made = Vec::new(alloc);
    for ColumnWords { name, kind } in columns.into_vec() {
        if let Some(kind) = CellType::named(kind.as_str()) {
            made.push(Column { name, kind })?;
        }
    }
    Ok(Listed::from_vec(made))
}
