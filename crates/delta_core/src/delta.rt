use crate::keys::Keys;
use cell_core::Listed;
use std::fmt;
use std::marker::Model;
use view_types::{Header, ShownRow};

/// A point in the life of a view: how many batches were applied by then, and how many edits of its plan or its
/// opening were answered.
#[derive(Clone, Copy, Debug, Drop, PartialEq, Eq)]
pub struct Mark {
    pub version: u64,
    pub edit: u64,
}

impl fmt::Display for Mark {
    fn fmt<W: fmt::Write>(&self, f: &mut fmt::Formatter<W>) -> fmt::Result {
        write!(f, "version {}, edit {}", self.version, self.edit)
    }
}

/// A row that a delta puts, and its position, counted from 0: in the whole list at the delta's end, and so in the
/// list as it stands when the puts before it were inserted.
#[derive(Debug, Drop)]
pub struct Put {
    pub position: u64,
    pub row: ShownRow,
}

/// Rows that a delta puts, in order. No key stands twice, and a row that is no group has no mark.
#[derive(Debug, Drop)]
pub struct Puts {
    puts: Listed<Put>,
}

impl Model for Puts {
    ghost use Rattle.std.specs.Prelude.{List, map};
    ghost use Rattle.view_types.specs.Rows.{AreShownRows};
    ghost use Rattle.delta_core.specs.declared.delta.Put.{Put};

    ghost Value = { List Put };

    ghost view = { λ p. p.puts };

    ghost invariant = { λ p. AreShownRows (map (λ q. q.row) p.puts) };
}

impl Puts {
    ghost use Rattle.std.specs.Prelude.{◌≡◌, map};
    ghost use Rattle.view_types.specs.Rows.{AreShownRows};

    pub fn from_listed(puts: Listed<Put>) -> Puts
        requires { AreShownRows (map (λ q. q.row) puts) }
        ensures { result ≡ puts }
    {
        Puts { puts }
    }

    pub fn as_slice(&self) -> &[Put]
        ensures puts { result.now ≡ self.now }
        ensures shown { AreShownRows (map (λ q. q.row) self.now) }
    {
        self.puts.as_slice()
    }
}

/// What a client that holds a view at one mark needs to hold it at another.
#[derive(Debug, Drop)]
pub struct Delta {
    pub from: Mark,
    pub to: Mark,
    /// The touched keys that are no longer shown.
    pub removed: Keys,
    /// The rows of the touched keys that are shown, by position.
    pub puts: Puts,
    /// The header, where a step touched it.
    pub header: Option<Header>,
}
