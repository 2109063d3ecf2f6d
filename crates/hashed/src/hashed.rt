// The hashed store, and where it finds things.
ghost use Rattle.std.specs.Prelude.{◌≡◌, min, length};
ghost use Rattle.hashed.specs.Cells.{room_of, used_of, ValidCells};

use crate::cell::{Cell, Link};
use crate::list::{Place, bucket_for, free_all, seek};
use keys::Key;

mod store;

/// The most cells that a store uses, however many are lent.
const MAX_ROOM: usize = 32_768;

/// A store whose entries stand in lists, one for each cell in use: a key's entries are in the list that
/// its hash number picks, in the order of its sequence, with other keys' entries between them.
#[derive(Drop)]
pub struct Hashed<'a, K: Key, V> {
    cells: &'a mut [Cell<K, V>],
    free: Link,
    // Every list ends, each cell is in one list, and each entry is in the bucket of its key.
    ghost valid: { ∥ ValidCells K.hash (room_of cells.now) (used_of cells.now) free.0 ∥₁ },
}

// How many of `n` cells a store uses.
fn room_for(n: usize) -> usize
    ensures { result ≡ min n 32768 }
{
    n.min(MAX_ROOM)
}

impl<'a, K: Key, V: Copy> Hashed<'a, K, V> {
    ghost use Rattle.std.specs.Prelude.{◌≤◌, [], drop};
    ghost use Rattle.chains.specs.State.{values};
    ghost use Rattle.hashed.specs.Store.{entries, room, spare, state, used, InRange, PlaceOf};

    /// An empty store over lent cells. Its room is their number, or 32,768 if there are more.
    pub fn new(cells: &'a mut [Cell<K, V>]) -> Self
        ensures empty { entries result ≡ [] }
        ensures room { room result ≡ min (length cells.old) 32768 }
        ensures outside { spare result ≡ (cells.entry.ghost_name, drop (room result) cells.old) }
    {
        let room = room_for(cells.len());
        let free = free_all(&mut cells[..room]);
        Hashed { cells, free }
    }

    // How many cells are in use.
    fn room(&self) -> usize
        ensures { result ≡ room self.now }
    {
        room_for(self.cells.len())
    }

    /// The place of the key's value at a rank, or the end of its bucket. With no room there is no bucket.
    fn find(&self, key: K, rank: usize) -> Place
        ensures range { InRange (room self.now) result }
        ensures place { PlaceOf K.Key.less K.Key.hash (room self.now) (used self.now) key rank result }
        ensures all { room self.now ≤ rank → result.passed ≡ length (values K.Key.less (state K.Key.less self.now) key) }
    {
        let room = self.room();
        if room == 0 {
            return Place {
                bucket: 0,
                previous: None,
                link: Link::NONE,
                passed: 0,
            };
        }
        seek(&self.cells[..room], bucket_for(key, room), key, rank)
    }
}
