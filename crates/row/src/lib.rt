// A list in cells that the caller lends, fast to insert into: the cells are cut into blocks of 256, each a ring, all
// full but the last one used, so that an insert shifts items within one block and moves one item for each later block.
#![tactic(auto)]

mod ring;
mod row;

pub use row::Row;
