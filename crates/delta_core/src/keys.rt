use cell_core::Listed;
use std::marker::Model;
use view_types::ViewKey;

/// Keys, none of which stands twice.
#[derive(Debug, Drop)]
pub struct Keys {
    keys: Listed<ViewKey>,
}

impl Model for Keys {
    ghost use Rattle.std.specs.Prelude.{List};
    ghost use Rattle.plain_data.specs.Distinct.{AreDistinct};
    ghost use Rattle.view_types.specs.declared.key.ViewKey.{ViewKey};

    ghost Value = { List ViewKey };

    ghost view = { λ k. k.keys };

    ghost invariant = { λ k. AreDistinct k.keys };
}

impl Keys {
    ghost use Rattle.std.specs.Prelude.{◌≡◌};
    ghost use Rattle.plain_data.specs.Distinct.{AreDistinct};

    pub fn from_listed(keys: Listed<ViewKey>) -> Keys
        requires { AreDistinct keys }
        ensures { result ≡ keys }
    {
        Keys { keys }
    }

    pub fn as_slice(&self) -> &[ViewKey]
        ensures keys { result.now ≡ self.now }
        ensures distinct { AreDistinct self.now }
    {
        self.keys.as_slice()
    }
}
