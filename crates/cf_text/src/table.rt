//! A table of a class file, as a value that definitions speak of.

ghost use Rattle.std.specs.Prelude.{◌≡◌, ◌≤◌, length};

use std::marker::Model;

/// Items of a class file in order, over a `Vec`: at most 65,535, since a table's count has two
/// bytes (JVMS 4.1, 4.7) and code at most 65,535 bytes (JVMS 4.7.3). A contract sees it as the list
/// of them.
#[derive(Debug, Drop)]
pub struct Table<T> {
    items: Vec<T>,
}

impl<T> Model for Table<T> {
    ghost use Rattle.std.specs.Prelude.{◌≤◌, List, length};

    ghost Value = { List T };

    ghost view = { λ table. table.items.items };

    ghost invariant = { λ table. length table.items.items ≤ 65535 };
}

impl<T> Table<T> {
    /// Returns the table of these items. The caller owes that they are at most 65,535. It takes no
    /// memory.
    pub fn new(items: Vec<T>) -> Table<T>
        requires few { length items.items ≤ 65535 }
        ensures { result ≡ items.items }
    {
        Table { items }
    }

    /// Returns the items of the table.
    pub fn as_slice(&self) -> &[T]
        ensures items { result.now ≡ self.now }
        ensures few { length self.now ≤ 65535 }
    {
        &self.items
    }

    /// Returns the items, and gives up the table. It takes no memory.
    pub fn into_vec(self) -> Vec<T>
        ensures { result.items ≡ self }
    {
        self.items
    }
}
