//! Values with where they were set, the cells that values show, and how values are read, merged and
//! copied: single values, maps by name, and tables, whose fields are visited.
//! It depends on `cc2_error` and on `toml` (what is read).
#![tactic(auto)]

mod color;
mod copier;
mod decode;
mod definition;
mod fields;
mod frequency;
mod gather;
mod gatherer;
mod joining;
mod map;
mod merge;
mod merge_fault;
mod number;
mod part;
mod parts;
mod plain;
mod plain_merge;
mod printed;
mod reader;
mod registries_protocol;
mod rows;
mod sent;
mod set_path;
mod spelled;
mod table;
mod try_clone;
mod value;
mod version_control_software;
mod when;

pub use color::Color;
pub use copier::copy_fields;
pub use decode::{Decode, defined, read_field, wrong_type};
pub use definition::Definition;
pub use fields::{Fields, Refused, Take, Visit, VisitAlone, VisitRef, Visited};
pub use frequency::Frequency;
pub use gatherer::{gather_fields, reverse_fields};
pub use joining::{Joined, join_list};
pub use map::{from_sorted, put};
pub use merge::{Merge, MergeFrom, merges_group, mixed};
pub use merge_fault::MergeAllFault;
pub use part::Part;
pub use parts::{Eight, Four, One, Pair, Parts, Three, Two};
pub use printed::prints_nothing;
pub use reader::read_fields;
pub use registries_protocol::RegistriesProtocol;
pub use rows::Rows;
pub use set_path::SetPath;
pub use spelled::Spelled;
pub use table::{Section, Table};
pub use try_clone::TryClone;
pub use value::{Plain, Value};
pub use version_control_software::VersionControlSoftware;
pub use when::When;
