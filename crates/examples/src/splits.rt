// What a split does on examples.
use crate::letters::key;
use chains::{ChainStore, OrderedStore, Refusal};
use ordered::{Cell, Ordered};
use split::Split;

#[test]
fn each_side_has_its_own_room(rt: HostRuntime) {
    let mut low = [Cell {
        key: key(0),
        value: 0u32,
    }; 1];
    let mut high = [Cell {
        key: key(0),
        value: 0u32,
    }; 2];
    let mut split = Split::new(Ordered::new(&mut low), Ordered::new(&mut high), key(10));
    assert!(rt; split.put(key(9), 0, 90).is_ok());
    assert_eq!(rt; split.put(key(8), 0, 80), Err(Refusal::Full));
    assert!(rt; split.put(key(10), 0, 100).is_ok());
    assert_eq!(rt; split.first(), Some(key(9)));
    assert_eq!(rt; split.above(key(9)), Some(key(10)));
    assert_eq!(rt; split.below(key(10)), Some(key(9)));
    assert_eq!(rt; split.last(), Some(key(10)));
}

#[test]
fn a_split_of_splits_is_a_store(rt: HostRuntime) {
    let mut low = [Cell {
        key: key(0),
        value: 0u32,
    }; 1];
    let mut middle = [Cell {
        key: key(0),
        value: 0u32,
    }; 1];
    let mut high = [Cell {
        key: key(0),
        value: 0u32,
    }; 1];
    let lower = Split::new(Ordered::new(&mut low), Ordered::new(&mut middle), key(10));
    let mut split = Split::new(lower, Ordered::new(&mut high), key(20));
    assert!(rt; split.put(key(5), 0, 50).is_ok());
    assert!(rt; split.put(key(25), 0, 250).is_ok());
    assert_eq!(rt; split.above(key(5)), Some(key(25)));
    assert_eq!(rt; split.below(key(20)), Some(key(5)));
}
