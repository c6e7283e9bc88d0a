//! Resolved settings as cells in bytes, written straight from the resolved tables: a flat list of key paths and values.
//!
//! A number is four bytes, the lowest first. A field is a number and so many bytes; a list is a number and so many
//! fields. A cell is the number of its keys, each key, and its value. A key is `f` (a table's own field) or `n` (a name
//! that the file picks), and a field. A value is one byte for its kind, and its content:
//!
//! | Kind | Content |
//! |---|---|
//! | `i` | an integer: one byte that is 1 where it is negative, else 0; its absolute value as a number |
//! | `b` | a truth value: one byte that is 1 or 0 |
//! | `t` | a text: a field |
//! | `a` | a list of texts, as flags, targets, or a program with its arguments |
//! | `p` | providers: a number and so many values, each `t` or `a` |
//! | `e` | nothing: a table is here, as a member of a map |
//! | `v` | a variable of the table `env`: a field with its value, and a byte each for `force` and `relative` |
#![tactic(auto)]

mod all_tables;
mod keyed;
mod leaf;
mod member;
mod provider;
mod put_cells;
mod row;
mod single;
mod table;
mod tables;
mod value;
mod whole_row;
mod words;
mod writer;

pub use all_tables::tables_cells;
pub use cc2_leaf::Pair;
pub use keyed::Keyed;
pub use member::PutMember;
pub use put_cells::PutCells;
pub use row::CellRow;
pub use table::CellTable;
pub use value::CellValue;
pub use whole_row::row_bytes;
pub use writer::{CellWriter, KeyKind};
