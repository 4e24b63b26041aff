//! A row of values, as a value that definitions speak of.

ghost use Rattle.std.specs.Prelude.{◌≡◌};

use std::marker::Model;

/// Values in order, over a `Vec`. A contract sees it as the list of them.
#[derive(Debug, Drop)]
pub struct Row<T> {
    items: Vec<T>,
}

impl<T> Model for Row<T> {
    ghost use Rattle.std.specs.Prelude.{List};

    ghost Value = { List T };

    ghost view = { λ row. row.items.items };
}

impl<T> Row<T> {
    /// Returns the row of these values. It takes no memory.
    pub fn new(items: Vec<T>) -> Row<T>
        ensures { result ≡ items.items }
    {
        Row { items }
    }

    /// Returns the values of the row.
    pub fn as_slice(&self) -> &[T]
        ensures { result.now ≡ self.now }
    {
        &self.items
    }

    /// Returns the values, and gives up the row. It takes no memory.
    pub fn into_vec(self) -> Vec<T>
        ensures { result.items ≡ self }
    {
        self.items
    }
}
