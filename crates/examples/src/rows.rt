// What a row does on examples.
use row::Row;

#[test]
fn a_room_of_three_fills_to_its_last_cell(rt: HostRuntime) {
    let mut cells = [0u32; 3];
    let mut row = Row::new(&mut cells);
    assert!(rt; row.insert(0, 30) && row.insert(0, 10) && row.insert(1, 20));
    assert!(rt; !row.insert(3, 40));
    assert_eq!(rt; row.partition_point(|&x| x < 20), 1);
    assert!(rt; row.set(2, 31));
    assert_eq!(rt; row.remove(0), Some(10));
    assert_eq!(rt; row.get(1), Some(31));
    assert_eq!(rt; row.get(2), None);
}

#[test]
fn no_cells_give_no_room(rt: HostRuntime) {
    let mut cells: [u32; 0] = [];
    let mut row = Row::new(&mut cells);
    assert!(rt; !row.insert(0, 1) && !row.set(0, 1));
    assert_eq!(rt; row.partition_point(|&x| x < 1), 0);
    assert_eq!(rt; row.remove(0), None);
}

#[test]
fn an_insert_moves_items_from_block_to_block(rt: HostRuntime) {
    let mut cells = [0u32; 600];
    let mut row = Row::new(&mut cells);
    for n in 0..600 {
        assert!(rt; row.insert(0, 599 - n));
    }
    assert_eq!(rt; row.remove(300), Some(300));
    assert_eq!(rt; row.get(300), Some(301));
    assert_eq!(rt; row.get(598), Some(599));
    assert_eq!(rt; row.partition_point(|&x| x < 511), 510);
}
