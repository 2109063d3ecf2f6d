// The row of cells.
#![tactic(auto, using(crate::proofs::Rooms::lengths), unfolding(crate::specs::Row::room))]

ghost use Rattle.std.specs.Prelude.{◌≡◌, ◌≤◌, min, [], length, drop};
ghost use Rattle.row.specs.Rings.{room_of, HeadsWithin};

mod blocks;
mod list;
mod search;

/// The most items that a row holds, however many cells are lent.
const MAX_ROOM: usize = 32_768;

/// A list of items in cells that are lent, of which it uses the first 32,768 at most.
#[derive(Drop)]
pub struct Row<'a, T> {
    cells: &'a mut [T],
    heads: [u16; 128],
    len: usize,
    ghost fits: { len ≤ room_of cells.now },
    ghost headed: { HeadsWithin 256 heads (room_of cells.now) },
}

impl<'a, T: Copy> Row<'a, T> {
    ghost use Rattle.row.specs.Row.{items, room, outside};

    /// An empty row over `cells`, whose contents do not matter.
    pub fn new(cells: &'a mut [T]) -> Self
        ensures empty { items result ≡ [] }
        ensures room { room result ≡ min (length cells.old) 32768 }
        ensures outside { outside result ≡ (cells.entry.ghost_name, drop (room result) cells.old) }
    {
        Row {
            cells,
            heads: [0; 128],
            len: 0,
        }
    }

    /// How many items it holds.
    pub fn len(&self) -> usize
        ensures len { result ≡ length (items self.now) }
        ensures fits { result ≤ room self.now }
    {
        self.len
    }

    /// How many items it can hold.
    pub fn capacity(&self) -> usize
        ensures { result ≡ room self.now }
    {
        self.cells.len().min(MAX_ROOM)
    }
}
