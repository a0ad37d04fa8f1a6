ghost use Rattle.std.specs.Prelude.{◌≡◌};
ghost use Rattle.frame_json.specs.Requests.{op_named, belongs};

/// The forms of requests, by the value of their member `op`.
#[derive(Clone, Copy, Debug, Drop, PartialEq, Eq)]
pub(crate) enum Op {
    Table,
    Port,
    Leave,
    Info,
    Update,
    Replace,
    Csv,
    Remove,
    Clear,
    ClosePort,
    Apply,
    Open,
    Edit,
    Depth,
    Expand,
    Collapse,
    Take,
    Rows,
    Close,
}

/// The form of that name.
pub(crate) fn op_of(name: &str) -> Option<Op>
    ensures { result ≡ op_named name.now }
{
    match name {
        "table" => Some(Op::Table),
        "port" => Some(Op::Port),
        "leave" => Some(Op::Leave),
        "info" => Some(Op::Info),
        "update" => Some(Op::Update),
        "replace" => Some(Op::Replace),
        "csv" => Some(Op::Csv),
        "remove" => Some(Op::Remove),
        "clear" => Some(Op::Clear),
        "close_port" => Some(Op::ClosePort),
        "apply" => Some(Op::Apply),
        "open" => Some(Op::Open),
        "edit" => Some(Op::Edit),
        "depth" => Some(Op::Depth),
        "expand" => Some(Op::Expand),
        "collapse" => Some(Op::Collapse),
        "take" => Some(Op::Take),
        "rows" => Some(Op::Rows),
        "close" => Some(Op::Close),
        _ => None,
    }
}

/// Whether the form has a member of that name. In a script each form has a `session`.
pub(crate) fn has_member(scripted: bool, op: Op, name: &str) -> bool
    ensures { result ≡ belongs scripted op name.now }
{
    if name == "op" || scripted && name == "session" {
        return true;
    }
    match op {
        Op::Table => name == "columns" || name == "index" || name == "limit",
        Op::Port | Op::Leave | Op::Info => false,
        Op::Update | Op::Replace => name == "port" || name == "rows",
        Op::Csv => name == "port" || name == "text",
        Op::Remove => name == "port" || name == "keys",
        Op::Clear | Op::ClosePort | Op::Apply => name == "port",
        Op::Open => name == "plan" || name == "bound",
        Op::Edit => name == "view" || name == "plan",
        Op::Depth => name == "view" || name == "depth",
        Op::Expand | Op::Collapse => name == "view" || name == "path",
        Op::Take => name == "view" || name == "wait",
        Op::Rows => name == "view" || name == "from" || name == "to",
        Op::Close => name == "view",
    }
}
