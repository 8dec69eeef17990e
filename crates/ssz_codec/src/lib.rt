//! Values in the bytes of SSZ, as simple-serialize.md defines them: cutting a container into its parts, reading and
//! writing basic values, vectors and lists, and the trait that every container has.
//!
//! Bytes come from files and records; values go to the containers above.
#![tactic(auto)]

mod basic;
mod bit_list;
mod containers;
mod fault;
mod items;
mod layout;
mod limited;
mod list_value;
mod lists;
mod number_list;
mod parts_writer;
mod pieces;
mod root_vector;
mod roots;
mod rows;
mod ssz;
mod variable_list;
mod writer;

pub use bit_list::{BitList, bits_read_back, one_writing_of_bits};
pub use fault::SszFault;
pub use items::Items;
pub use layout::{Field, cut};
pub use limited::{LimitedList, ListLimit};
pub use list_value::ListValue;
pub use lists::{append_items, read_items, read_list, read_variable_list};
pub use number_list::NumberList;
pub use parts_writer::{FieldRow, PartsWriter, append_fields};
pub use pieces::{Cut, Parts};
pub use root_vector::{RootVector, VectorLength};
pub use roots::{list_root, number_list_root, variable_list_root, vector_root};
pub use rows::{Offset, Piece, Pieces, Row, read_row};
pub use ssz::{FixedSsz, Ssz, one_writing, reads_back};
pub use variable_list::{VariableList, VariableSsz};
pub use writer::Writer;
