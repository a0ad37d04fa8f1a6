use cell_core::{Listed, Text};
use std::marker::Model;

/// A text under a name: the aggregate that a plan names for a column, or the expression that makes a column.
#[derive(Debug, Drop)]
pub struct NamedText {
    pub name: Text,
    pub text: Text,
}

/// Texts under names. The names ascend by their bytes, and none stands twice.
#[derive(Debug, Drop)]
pub struct NamedTexts {
    texts: Listed<NamedText>,
}

impl Model for NamedTexts {
    ghost use Rattle.std.specs.Prelude.{List};
    ghost use Rattle.plan_json.specs.declared.named.NamedText.{NamedText};

    ghost Value = { List NamedText };

    ghost use Rattle.plan_json.specs.Names.{NamesAscend};

    ghost view = { λ named. named.texts };

    ghost invariant = { λ named. NamesAscend named.texts };
}

impl NamedTexts {
    ghost use Rattle.std.specs.Prelude.{◌≡◌};
    ghost use Rattle.plan_json.specs.Names.{NamesAscend};

    /// The texts of a list, with no copy made.
    pub fn from_listed(texts: Listed<NamedText>) -> NamedTexts
        requires { NamesAscend texts }
        ensures { result ≡ texts }
    {
        NamedTexts { texts }
    }

    /// The texts, ascending by their names.
    pub fn as_slice(&self) -> &[NamedText]
        ensures texts { result.now ≡ self.now }
        ensures ascend { NamesAscend self.now }
    {
        self.texts.as_slice()
    }
}
