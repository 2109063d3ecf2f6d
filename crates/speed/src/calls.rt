// One call of the store for each of many keys, and how many of them gave something. Calls that change the store stand in
// a `for`: of a store that an iterator's closure changed nothing would be known afterwards.
ghost use Rattle.std.specs.Prelude.{◌≡◌, count_by};
ghost use Rattle.ordered.specs.Store.{state};
ghost use Rattle.speed.specs.Workload.{filled, accepted, taken, has_value, has_above};

use chains::{ChainStore, OrderedStore};
use keys::LettersKey;
use ordered::Ordered;

/// Puts each key at rank 0, and counts those accepted.
pub(crate) fn put_all(store: &mut Ordered<'_, LettersKey, u32>, keys: &[u64]) -> usize
    ensures effect { state store.new ≡ filled (state store.old) keys.now }
    ensures count { result ≡ accepted (state store.old) keys.now }
{
    let mut count: usize = 0;
    for &number in keys {
        let put = store.put(LettersKey { number }, 0, 0);
        count += usize::from(put.is_ok());
    }
    count
}

/// Looks each key up, and counts those that have a value.
pub(crate) fn value_all(store: &Ordered<'_, LettersKey, u32>, wanted: &[u64]) -> usize
    ensures { result ≡ count_by (has_value (state store.now)) wanted.now }
{
    wanted
        .iter()
        .filter(|&&number| store.value(LettersKey { number }, 0).is_some())
        .count()
}

/// Asks for the next key above each, and counts those that have one.
pub(crate) fn above_all(store: &Ordered<'_, LettersKey, u32>, wanted: &[u64]) -> usize
    ensures { result ≡ count_by (has_above (state store.now)) wanted.now }
{
    wanted
        .iter()
        .filter(|&&number| store.above(LettersKey { number }).is_some())
        .count()
}

/// Takes the value at rank 0 of each key out, and counts those that had one.
pub(crate) fn take_all(store: &mut Ordered<'_, LettersKey, u32>, wanted: &[u64]) -> usize
    ensures { result ≡ taken (state store.old) wanted.now }
{
    let mut count: usize = 0;
    for &number in wanted {
        let took = store.take(LettersKey { number }, 0);
        count += usize::from(took);
    }
    count
}
