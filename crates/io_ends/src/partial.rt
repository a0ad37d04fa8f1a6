ghost use Rattle.std.specs.Prelude.{ℕ, true, false, List, [], ◌∷◌, ◌++◌, OnOk};
ghost use Rattle.io_ends.specs.Lines.{NoEnd};
ghost use Rattle.io_ends.specs.Partial.{Stands};
ghost use Rattle.io_ends.specs.Reading.{Gives};

use crate::line::Line;
use plain_data::Listed;
use std::alloc::{AllocError, Global};

/// The front of a line, kept only as long as it isn't too long.
#[derive(Drop)]
pub struct Partial {
    pub text: Vec<u8>,
    pub long: bool,
}

impl Partial {
    /// The front of which nothing was read.
    pub fn new(alloc: Global) -> Partial
        ensures { (longest : ℕ) → Stands longest [] result }
    {
        Partial {
            text: Vec::new(alloc),
            long: false,
        }
    }

    /// Puts `part` at the end, and forgets the text once it has more than `longest` bytes.
    pub fn add(&mut self, longest: u64, part: &[u8]) -> Result<(), AllocError>
        ensures { OnOk result ((text : List ℕ) → Stands longest text self.old
            → Stands longest (text ++ part.now) self.new) }
    {
        if self.long {
            return Ok(());
        }
        let room = longest.saturating_sub(self.text.len() as u64);
        if part.len() as u64 > room {
            self.long = true;
            self.text.clear();
            return Ok(());
        }
        self.text.extend_from_slice(part)
    }

    /// The line that byte 10 ended.
    pub fn whole(self) -> Line
        ensures { (longest : ℕ) (text rest : List ℕ) → Stands longest text self → NoEnd text
            → Gives longest (text ++ 10 ∷ rest) result rest false }
    {
        let Partial { text, long } = self;
        if long {
            return Line::Long;
        }
        Line::Words(Listed::from_vec(text))
    }

    /// The line that the end of input ended. An empty rest is no line.
    pub fn last(self) -> Line
        ensures { (longest : ℕ) (text : List ℕ) → Stands longest text self → NoEnd text
            → Gives longest text result [] true }
    {
        let Partial { text, long } = self;
        if long {
            return Line::Long;
        }
        if text.is_empty() {
            return Line::End;
        }
        Line::Words(Listed::from_vec(text))
    }
}
