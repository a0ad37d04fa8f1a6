ghost use Rattle.std.specs.Prelude.{◌≡◌, [], ◌∷◌, reverse, OnOk, MatchOption};
ghost use Rattle.std.specs.Option.{option_copied};
ghost use Rattle.expr_parse.specs.Machine.{first};

use plain_data::Memory;
use std::alloc::Global;
use std::marker::Model;

/// A stack, which contracts see as the list of its items from the top.
#[derive(Debug, Drop)]
pub struct Stack<T> {
    lowest_first: Vec<T>,
}

impl<T> Model for Stack<T> {
    ghost use Rattle.std.specs.Prelude.{List, reverse};
    ghost use Rattle.std.specs.Coded.{coded_list};

    ghost Value = { List T };

    ghost coded = { coded_list T.code };

    ghost view = { λ s. reverse s.lowest_first.items };
}

impl<T> Stack<T> {
    /// The empty stack. It takes no memory.
    pub fn new(alloc: Global) -> Stack<T>
        ensures { result ≡ [] }
    {
        Stack {
            lowest_first: Vec::new(alloc),
        }
    }

    pub fn top(&self) -> Option<&T>
        ensures { option_copied result ≡ first self.now }
    {
        self.lowest_first.last()
    }

    pub fn lowest_first(&self) -> &[T]
        ensures { reverse result.now ≡ self.now }
    {
        self.lowest_first.as_slice()
    }
}

impl<T: Drop> Stack<T> {
    /// Puts `item` on the top. After want of memory the item is gone.
    pub fn push(&mut self, item: T) -> Result<(), Memory>
        ensures { OnOk result (self.new ≡ item ∷ self.old) }
    {
        self.lowest_first.push(item)?;
        Ok(())
    }

    /// Takes the top item off.
    pub fn pop(&mut self) -> Option<T>
        ensures { MatchOption result ((self.old ≡ []) × (self.new ≡ [])) (λ item. self.old ≡ item ∷ self.new) }
    {
        self.lowest_first.pop()
    }
}
