// The hashed store and the register's store on examples.
use crate::letters::key;
use chains::ChainStore;
use hashed::{Cell, Hashed};
use keys::{Length, Translator};
use register::{Use, register_store};

#[test]
fn a_hashed_store_fills_to_its_last_cell_again_and_again(rt: HostRuntime) {
    let mut cells = [Cell::new(key(0), 0u32); 40];
    let mut store = Hashed::new(&mut cells);
    for n in 0..40u32 {
        assert!(rt; store.put(key(u64::from(n % 7)), 0, n).is_ok());
    }
    assert!(rt; store.put(key(50), 0, 1).is_err());
    assert_eq!(rt; store.count(key(4)), 6);
    assert_eq!(rt; store.value(key(4), 1), Some(32));
    for n in 0..40u32 {
        assert!(rt; store.take(key(u64::from(n % 7)), 0));
    }
    for n in 0..40u32 {
        assert!(rt; store.put(key(u64::from(n)), 0, n).is_ok());
    }
    assert!(rt; store.put(key(50), 0, 1).is_err());
    assert_eq!(rt; store.value(key(39), 0), Some(39));
}

#[test]
fn a_full_side_of_the_register_refuses_and_the_other_takes(rt: HostRuntime) {
    let first = Use { paper: 1, issue: 7 };
    let empty = Cell::new(Length.transform(b""), first);
    let mut short = [empty; 2];
    let mut long = [empty; 2];
    let mut store = register_store(&mut short, &mut long);
    let aria = Length.transform(b"ARIA");
    let crossword = Length.transform(b"CROSSWORD");
    assert!(rt; store.put(aria, 0, first).is_ok() && store.put(aria, 0, first).is_ok());
    assert!(rt; store.put(aria, 0, first).is_err());
    assert!(rt; store.put(crossword, 0, first).is_ok());
    assert!(rt; store.take(aria, 1));
    assert!(rt; store.put(aria, 1, first).is_ok());
    assert_eq!(rt; store.count(crossword), 1);

    assert!(rt; store.take(aria, 0) && store.take(crossword, 0) && store.take(aria, 0));
    assert_eq!(rt; store.count(aria), 0);
    assert!(rt; store.put(aria, 0, first).is_ok() && store.put(aria, 0, first).is_ok());
    assert!(rt; store.put(aria, 0, first).is_err());
    assert!(rt; store.put(crossword, 0, first).is_ok());
}

#[test]
fn a_cell_prints_its_links_as_numbers(rt: HostRuntime) {
    let cell = Cell::new(7u32, 9u32);
    let text = format!(in rt.alloc(); "{cell:?}").expect(&rt, "memory for the text");
    assert_eq!(rt;
        text.as_str(),
        "Cell { key: 7, value: 9, first: 32768, next: 32768 }"
    );
}
