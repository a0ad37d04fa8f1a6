ghost use Rattle.std.specs.Prelude.{◌≡◌, IfOk};
ghost use Rattle.rank_bench.specs.Spot.{spot_order, spot_order_total, spot_order_exact};

use plain_data::Text;
use rank_list::Placed;
use std::alloc::{AllocError, Global};
use std::cmp::Ordering;

/// What a list is filled with: a number under a text, which counts first.
#[derive(Debug, Drop)]
pub struct Spot {
    text: Text,
    number: u64,
}

impl Spot {
    /// The spot of `number`, whose text it shares with up to 15 others.
    pub fn make(alloc: Global, number: u64) -> Result<Spot, AllocError>
        ensures { IfOk result (λ spot. spot.number ≡ number) }
    {
        let string = format!(in alloc; "group {:05}", number / 16)?;
        Ok(Spot {
            text: Text::from_string(string),
            number,
        })
    }

    pub fn number(&self) -> u64
        ensures { result ≡ self.now.number }
    {
        self.number
    }
}

impl Placed for Spot {
    ghost order = { spot_order };

    ghost total = { spot_order_total };

    ghost exact = { spot_order_exact };

    fn before(&self, other: &Spot) -> bool {
        match self.text.cmp(&other.text) {
            Ordering::Less => true,
            Ordering::Equal => self.number < other.number,
            Ordering::Greater => false,
        }
    }
}
