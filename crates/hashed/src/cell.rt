// One cell of a store, and its links.
ghost use Rattle.std.specs.Prelude.{◌≡◌, ◌<◌};
ghost use Rattle.hashed.specs.Cells.{nowhere, target};

use std::fmt;
use std::fmt::{Debug, Formatter, Write};

/// Leads to a cell by its number. A number past the cells in use leads to none: that link ends a list.
#[derive(Clone, Copy, PartialEq, Eq)]
pub struct Link(pub u16);

/// A link prints as its number.
impl Debug for Link {
    ghost use Rattle.std.specs.Prelude.{Some, decimal};

    ghost debug_output = { λ link. Some (decimal link.0) };

    fn fmt<W: Write>(&self, f: &mut Formatter<W>) -> fmt::Result {
        Debug::fmt(&self.0, f)
    }
}

impl Link {
    /// Leads to no cell.
    pub(crate) const NONE: Link = Link(32_768);

    /// Leads to the cell `x`.
    pub(crate) fn to(x: usize) -> Link
        requires { x < 32768 }
        ensures { result.0 ≡ x }
    {
        Link(x as u16)
    }

    /// The cell that it leads to, among the first `room`.
    pub(crate) fn cell(self, room: usize) -> Option<usize>
        ensures { result ≡ target room self.0 }
    {
        let x = usize::from(self.0);
        (x < room).then_some(x)
    }
}

/// A cell that the caller lends: it holds one value with its key, and takes part in two lists. `first`
/// starts the list of the bucket with this cell's number, and `next` goes on from this cell in the
/// list that it is in.
#[derive(Clone, Copy, PartialEq, Eq, Debug)]
pub struct Cell<K, V> {
    pub key: K,
    pub value: V,
    pub first: Link,
    pub next: Link,
}

impl<K, V> Cell<K, V> {
    /// A cell to lend; what it holds does not matter to a store.
    pub fn new(key: K, value: V) -> Self
        ensures { result ≡ record { key = key; value = value; first = nowhere; next = nowhere } }
    {
        Cell {
            key,
            value,
            first: Link::NONE,
            next: Link::NONE,
        }
    }
}
