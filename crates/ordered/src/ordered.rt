// The ordered store, and where it finds things.
ghost use Rattle.row.specs.Row.{items};
ghost use Rattle.ordered.specs.Sorted.{Sorted, Sorted-prop};

use crate::cell::Cell;
use keys::Key;
use row::Row;

mod neighbours;
mod store;

/// A store whose entries stand in a row of lent cells, sorted by key; the entries of one key stand
/// side by side, in the order of its sequence.
#[derive(Drop)]
pub struct Ordered<'a, K: Key, V> {
    row: Row<'a, Cell<K, V>>,
    ghost sorted: { Sorted K.less (items row) } by { Sorted-prop K.less (items row) },
}

/// A value of a sequence, and the place of its entry.
#[derive(Clone, Copy)]
struct Found<V> {
    place: usize,
    value: V,
}

impl<'a, K: Key, V: Copy> Ordered<'a, K, V> {
    ghost use Rattle.std.specs.Prelude.{◌≡◌, ◌+◌, ◌<◌, ◌≤◌, min, [], length, drop, MatchOption, option_map};
    ghost use Rattle.std.specs.List.{slice_get};
    ghost use Rattle.chains.specs.Contents.{key_above};
    ghost use Rattle.chains.specs.State.{values};
    ghost use Rattle.ordered.specs.Sorted.{smaller};
    ghost use Rattle.ordered.specs.Store.{entries, room_of, spare, state, StandsAt, GoesAt};

    /// An empty store over lent cells. Its room is their number, or 32,768 if there are more.
    pub fn new(cells: &'a mut [Cell<K, V>]) -> Self
        ensures empty { entries result ≡ [] }
        ensures room { room_of result ≡ min (length cells.old) 32768 }
        ensures outside { spare result ≡ (cells.entry.ghost_name, drop (room_of result) cells.old) }
    {
        Ordered {
            row: Row::new(cells),
        }
    }

    /// The place of the key's first entry, or where it would stand.
    fn start(&self, key: K) -> usize
        ensures within { result ≤ length (entries self.now) }
        ensures place { result ≡ smaller K.less (entries self.now) key }
    {
        self.row.partition_point(|cell| cell.key.is_less(&key))
    }

    /// The place behind the key's last entry: there the next key with values stands.
    fn end(&self, key: K) -> usize
        ensures place { result ≡ smaller K.less (entries self.now) key + length (values K.less (state self.now) key) }
        ensures next { option_map (λ e. e.key) (slice_get (entries self.now) result) ≡ key_above K.less (state self.now).contents key }
    {
        self.row.partition_point(|cell| !key.is_less(&cell.key))
    }

    /// The value at a rank of the key's sequence, and its place. From the key's first place on no
    /// entry is smaller, so one comparison tells whether an entry there is the key's own.
    fn find(&self, key: K, rank: usize) -> Option<Found<V>>
        ensures place { MatchOption result
            (length (values K.less (state self.now) key) ≤ rank)
            (λ f. StandsAt self.now key rank f.place) }
        ensures value { option_map (λ f. f.value) result ≡ slice_get (values K.less (state self.now) key) rank }
    {
        let place = self.start(key).saturating_add(rank);
        let cell = self.row.get(place)?;
        (!key.is_less(&cell.key)).then_some(Found {
            place,
            value: cell.value,
        })
    }

    /// The place at which a value of that rank goes in, or none where the rank exceeds the length.
    #[tactic(auto, using(crate::proofs::Effects::stretch_within, row::proofs::Rooms::items_fit, row::proofs::Rooms::room_small))]
    fn place_for(&self, key: K, rank: usize) -> Option<usize>
        ensures { MatchOption result
            (length (values K.less (state self.now) key) < rank)
            (λ place. GoesAt self.now key rank place) }
    {
        let Some(previous) = rank.checked_sub(1) else {
            return Some(self.start(key));
        };
        Some(self.find(key, previous)?.place + 1)
    }

    /// The key of the entry at a place.
    fn key_at(&self, place: usize) -> Option<K>
        ensures { result ≡ option_map (λ e. e.key) (slice_get (entries self.now) place) }
    {
        self.row.get(place).map(|cell| cell.key)
    }
}
