ghost use Rattle.std.specs.Prelude.{◌≡◌, IfOk};
ghost use Rattle.frame_json.specs.Replies.{text};

use crate::build::value_of_reply;
use cell_core::{Memory, Text};
use frame_types::Reply;
use std::alloc::Global;

/// The text of a reply, one compact JSON object with its members in byte order of their names, and
/// no line end.
///
/// A whole number further from 0 than 2^53-1, which many readers of JSON would round, is written as
/// `["i","digits"]` in a cell. Of the mark at which a delta ends the text has the edit number alone, since the
/// version is the reply's own.
pub fn write_reply(alloc: Global, reply: &Reply) -> Result<Text, Memory>
    ensures { IfOk result (λ t. t ≡ text reply.now) }
{
    let value = value_of_reply(alloc, reply)?;
    Ok(Text::from_string(value.to_string(alloc)?))
}
