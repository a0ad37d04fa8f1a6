ghost use Rattle.std.specs.Prelude.{◌≡◌, IfOk, OnOk, map, option_map};
ghost use Rattle.serde_json.specs.Data.{put as put_member, string};
ghost use Rattle.serde_json.specs.View.{view, items_view};
ghost use Rattle.frame_types.specs.Refusals.{cause_name, cause_place, cause_text};
ghost use Rattle.frame_json.specs.Replies.{lost_view, lost_data, at_items, mark_data, words_data, columns_data, form_of as form_named, reply_data};

use crate::member::Members;
use crate::show::{header, keys, pair, placed_rows, rows, words};
use cell_core::{ColumnWords, Memory, Numbers, Text};
use delta_core::{Delta, Mark};
use frame_types::{Body, Cause, Refusal, Reply};
use plan_json::PlanPart;
use serde_json::{Map, Value, put};
use std::alloc::Global;
use view_types::Shown;

/// The reply as a JSON value.
pub(crate) fn value_of_reply(alloc: Global, reply: &Reply) -> Result<Value, Memory>
    ensures { IfOk result (λ v. view v ≡ reply_data reply.now) }
{
    let mut built = Builder {
        alloc,
        members: Map::new(alloc),
    };
    built.words("is", form_of(&reply.body))?;
    built.numbers(&[("n", reply.n), ("version", reply.version)])?;
    built.body(&reply.body)?;
    Ok(Value::Object(built.members))
}

/// The members of a reply, as they are put in.
#[derive(Drop)]
pub(crate) struct Builder {
    alloc: Global,
    members: Members,
}

impl Builder {
    ghost use Rattle.std.specs.Prelude.{◌≡◌, OnOk, map};
    ghost use Rattle.serde_json.specs.Data.{put as put_member, string};
    ghost use Rattle.serde_json.specs.View.{view};
    ghost use Rattle.frame_json.specs.Building.{members_in};
    ghost use Rattle.frame_json.specs.Replies.{with_members, numbers_named, shown_members, delta_members, table_members, refusal_members, members_of};

    fn put(&mut self, name: &str, value: Value) -> Result<(), Memory>
        ensures { OnOk result (members_in self.new ≡ put_member name.now (view value) (members_in self.old)) }
    {
        Ok(put(&mut self.members, self.alloc, name, value)?)
    }

    fn words(&mut self, name: &str, text: &str) -> Result<(), Memory>
        ensures { OnOk result (members_in self.new ≡ put_member name.now (string text.now) (members_in self.old)) }
    {
        self.put(name, words(self.alloc, text)?)
    }

    fn numbers(&mut self, numbers: &[(&str, u64)]) -> Result<(), Memory>
        ensures { OnOk result (members_in self.new
            ≡ with_members (members_in self.old) (numbers_named (map (λ n. (n.0.now, n.1)) numbers.now))) }
    {
        for (name, number) in numbers {
            self.put(name, Value::from(*number))?;
        }
        Ok(())
    }

    fn shown(&mut self, shown: &Shown) -> Result<(), Memory>
        ensures { OnOk result (members_in self.new ≡ with_members (members_in self.old) (shown_members shown.now)) }
    {
        self.put("header", header(self.alloc, shown.header.as_slice())?)?;
        self.put("rows", rows(self.alloc, shown.rows.as_slice())?)
    }

    fn delta(&mut self, delta: &Delta) -> Result<(), Memory>
        ensures { OnOk result (members_in self.new ≡ with_members (members_in self.old) (delta_members delta.now)) }
    {
        self.numbers(&[("edit", delta.to.edit)])?;
        self.put("from", mark(self.alloc, delta.from)?)?;
        self.put("put", placed_rows(self.alloc, delta.puts.as_slice())?)?;
        self.put("removed", keys(self.alloc, delta.removed.as_slice())?)?;
        if let Some(columns) = &delta.header {
            self.put("header", header(self.alloc, columns.as_slice())?)?;
        }
        Ok(())
    }

    /// What the table is kept under.
    fn table(
        &mut self,
        columns: &[ColumnWords],
        index: Option<&Text>,
        limit: Option<u64>,
    ) -> Result<(), Memory>
        ensures { OnOk result (members_in self.new
            ≡ with_members (members_in self.old) (table_members columns.now (option_map (λ t. t.now) index.entry) limit)) }
    {
        self.put("columns", column_list(self.alloc, columns)?)?;
        if let Some(name) = index {
            self.words("index", name.as_str())?;
        }
        if let Some(limit) = limit {
            self.numbers(&[("limit", limit)])?;
        }
        Ok(())
    }

    fn refusal(&mut self, refusal: Refusal) -> Result<(), Memory>
        ensures { OnOk result (members_in self.new ≡ with_members (members_in self.old) (refusal_members refusal)) }
    {
        self.put("at", Value::Array(places(self.alloc, refusal.at)?))?;
        let cause = cause_text(self.alloc, refusal.cause)?;
        self.words("cause", cause.as_str())?;
        self.numbers(&[("code", u64::from(refusal.code))])
    }

    /// The members that a form has beside those of every reply.
    fn body(&mut self, body: &Body) -> Result<(), Memory>
        ensures { OnOk result (members_in self.new ≡ with_members (members_in self.old) (members_of body.now)) }
    {
        match body {
            Body::Table => Ok(()),
            Body::Port { port } | Body::PortClosed { port } => self.numbers(&[("port", *port)]),
            Body::Queued { port, seq } | Body::Applied { port, seq } => {
                self.numbers(&[("port", *port), ("seq", *seq)])
            }
            Body::AppliedLosing { lost, port, seq } => {
                self.put("lost", lost_views(self.alloc, lost.as_slice())?)?;
                self.numbers(&[("port", *port), ("seq", *seq)])
            }
            Body::Opened { edit, shown, view } => {
                self.shown(shown)?;
                self.numbers(&[("edit", *edit), ("view", *view)])
            }
            Body::Edited { edit, view } => self.numbers(&[("edit", *edit), ("view", *view)]),
            Body::Delta { delta, view } => {
                self.numbers(&[("view", *view)])?;
                self.delta(delta)
            }
            Body::Resync {
                bound,
                edit,
                shown,
                view,
            } => {
                self.shown(shown)?;
                self.numbers(&[("bound", *bound), ("edit", *edit), ("view", *view)])
            }
            Body::Rows {
                edit,
                from,
                shown,
                size,
                view,
            } => {
                self.shown(shown)?;
                self.numbers(&[
                    ("edit", *edit),
                    ("from", *from),
                    ("size", *size),
                    ("view", *view),
                ])
            }
            Body::Closed { view } => self.numbers(&[("view", *view)]),
            Body::Left { closed } => self.numbers(&[("closed", *closed)]),
            Body::Info {
                columns,
                index,
                limit,
                size,
                waiting,
            } => {
                self.numbers(&[("size", *size), ("waiting", *waiting)])?;
                self.table(columns.as_slice(), index.as_ref(), *limit)
            }
            Body::Refused(refusal) => self.refusal(*refusal),
        }
    }
}

/// A reply's form, which stands under `is`.
fn form_of(body: &Body) -> &'static str
    ensures { result.now ≡ form_named body.now }
{
    match body {
        Body::Table => "table",
        Body::Port { .. } => "port",
        Body::PortClosed { .. } => "port_closed",
        Body::Queued { .. } => "queued",
        Body::Applied { .. } => "applied",
        Body::AppliedLosing { .. } => "applied_losing",
        Body::Opened { .. } => "opened",
        Body::Edited { .. } => "edited",
        Body::Delta { .. } => "delta",
        Body::Resync { .. } => "resync",
        Body::Rows { .. } => "rows",
        Body::Closed { .. } => "closed",
        Body::Left { .. } => "left",
        Body::Info { .. } => "info",
        Body::Refused(_) => "refused",
    }
}

/// The words of a cause, behind the member of a plan where it is of one.
fn cause_text(alloc: Global, cause: Cause) -> Result<Text, Memory>
    ensures { IfOk result (λ text. text ≡ cause_text cause) }
{
    let mut text = String::from_str(alloc, cause_place(cause))?;
    text.push_str(cause_name(cause))?;
    Ok(Text::from_string(text))
}

fn cause_place(cause: Cause) -> &'static str
    ensures { result.now ≡ cause_place cause }
{
    match cause {
        Cause::Plan(PlanPart::Expressions, _) => "expressions: ",
        Cause::Plan(PlanPart::Columns, _) => "columns: ",
        Cause::Plan(PlanPart::GroupBy, _) => "group_by: ",
        Cause::Plan(PlanPart::SplitBy, _) => "split_by: ",
        Cause::Plan(PlanPart::Aggregates, _) => "aggregates: ",
        Cause::Plan(PlanPart::Filter, _) => "filter: ",
        Cause::Plan(PlanPart::FilterOp, _) => "filter_op: ",
        Cause::Plan(PlanPart::Sort, _) => "sort: ",
        _ => "",
    }
}

fn cause_name(cause: Cause) -> &'static str
    ensures { result.now ≡ cause_name cause }
{
    match cause {
        Cause::Long => "long",
        Cause::Json => "json",
        Cause::Object => "object",
        Cause::Op => "op",
        Cause::Member => "member",
        Cause::TableSet => "table set",
        Cause::NoColumns => "no columns",
        Cause::TooManyColumns => "too many columns",
        Cause::NameLength => "name length",
        Cause::BadType => "type",
        Cause::Twice => "twice",
        Cause::IndexAndLimit => "index and limit",
        Cause::Index => "index",
        Cause::Limit => "limit",
        Cause::TooManyPorts => "too many ports",
        Cause::NoPort => "no port",
        Cause::PortClosed => "port closed",
        Cause::Shape => "shape",
        Cause::Csv => "csv",
        Cause::Header => "header",
        Cause::Unknown => "unknown",
        Cause::Length => "length",
        Cause::Rows => "rows",
        Cause::Date => "date",
        Cause::Range => "range",
        Cause::NotIndexed => "not indexed",
        Cause::PortFull => "port full",
        Cause::TableFull => "table full",
        Cause::HistoryFull => "history full",
        Cause::Empty => "empty",
        Cause::PlanForm => "form",
        Cause::Plan(_, word) => word.word(),
        Cause::TooManyViews => "too many views",
        Cause::NoView => "no view",
        Cause::ViewLost => "view lost",
        Cause::NoRow => "no row",
        Cause::NotAGroup => "not a group",
        Cause::TooManyOpen => "too many open",
        Cause::Window => "window",
        Cause::NoTable => "no table",
        Cause::Memory => "memory",
    }
}

/// Where the cause of a refusal was found.
fn places(alloc: Global, at: Numbers) -> Result<Vec<Value>, Memory>
    ensures { IfOk result (λ v. items_view v.items ≡ at_items at) }
{
    let mut found = Vec::new(alloc);
    match at {
        Numbers::Zero => {}
        Numbers::One(a) => found.push(Value::from(a))?,
        Numbers::Two(a, b) => {
            found.push(Value::from(a))?;
            found.push(Value::from(b))?;
        }
    }
    Ok(found)
}

fn lost_one(alloc: Global, lost: &(u32, u64)) -> Result<Value, Memory>
    ensures { IfOk result (λ v. view v ≡ lost_view lost.now) }
{
    pair(alloc, Value::from(lost.0 as u64), Value::from(lost.1))
}

fn lost_views(alloc: Global, lost: &[(u32, u64)]) -> Result<Value, Memory>
    ensures { IfOk result (λ v. view v ≡ lost_data lost.now) }
{
    let mut found = Vec::new(alloc);
    for item in lost {
        found.push(lost_one(alloc, item)?)?;
    }
    Ok(Value::Array(found))
}

fn mark(alloc: Global, mark: Mark) -> Result<Value, Memory>
    ensures { IfOk result (λ v. view v ≡ mark_data mark) }
{
    pair(alloc, Value::from(mark.version), Value::from(mark.edit))
}

fn column_words(alloc: Global, column: &ColumnWords) -> Result<Value, Memory>
    ensures { IfOk result (λ v. view v ≡ words_data column.now) }
{
    let name = words(alloc, column.name.as_str())?;
    let kind = words(alloc, column.kind.as_str())?;
    pair(alloc, name, kind)
}

fn column_list(alloc: Global, columns: &[ColumnWords]) -> Result<Value, Memory>
    ensures { IfOk result (λ v. view v ≡ columns_data columns.now) }
{
    let mut found = Vec::new(alloc);
    for column in columns {
        found.push(column_words(alloc, column)?)?;
    }
    Ok(Value::Array(found))
}
