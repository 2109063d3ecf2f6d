// The exported workloads. C calls each, so each has the cells of its store in its own frame.
ghost use Rattle.std.specs.Prelude.{◌≡◌, min, length, count_by};
ghost use Rattle.speed.specs.Workload.{empty, filled, taken};
ghost use Rattle.speed.specs.Workload.{has_value, has_above};

use crate::calls::{above_all, put_all, take_all, value_all};
use keys::LettersKey;
use ordered::{Cell, Ordered};

/// The cells of each store: as many as it can use.
const CELLS: usize = 32_768;

/// A cell of a store that is empty still.
const UNUSED: Cell<LettersKey, u32> = Cell {
    key: LettersKey { number: 0 },
    value: 0,
};

/// Puts the keys into a store of 32,768 cells; how many were accepted.
#[unsafe(no_mangle)]
pub extern "C" fn ordered_put(keys: &[u64]) -> usize
    ensures { result ≡ min (length keys.now) 32768 }
{
    let mut cells = [UNUSED; CELLS];
    let mut store = Ordered::new(&mut cells);
    put_all(&mut store, keys)
}

/// Puts the keys, then looks the wanted ones up; how many of these have a value.
#[unsafe(no_mangle)]
pub extern "C" fn ordered_value(keys: &[u64], wanted: &[u64]) -> usize
    ensures { result ≡ count_by (has_value (filled empty keys.now)) wanted.now }
{
    let mut cells = [UNUSED; CELLS];
    let mut store = Ordered::new(&mut cells);
    put_all(&mut store, keys);
    value_all(&store, wanted)
}

/// Puts the keys, then asks for the next key above each wanted one; how many there are.
#[unsafe(no_mangle)]
pub extern "C" fn ordered_above(keys: &[u64], wanted: &[u64]) -> usize
    ensures { result ≡ count_by (has_above (filled empty keys.now)) wanted.now }
{
    let mut cells = [UNUSED; CELLS];
    let mut store = Ordered::new(&mut cells);
    put_all(&mut store, keys);
    above_all(&store, wanted)
}

/// Puts the keys, then takes a value of each wanted one out; how many were taken.
#[unsafe(no_mangle)]
pub extern "C" fn ordered_take(keys: &[u64], wanted: &[u64]) -> usize
    ensures { result ≡ taken (filled empty keys.now) wanted.now }
{
    let mut cells = [UNUSED; CELLS];
    let mut store = Ordered::new(&mut cells);
    put_all(&mut store, keys);
    take_all(&mut store, wanted)
}
