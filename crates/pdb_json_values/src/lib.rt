//! Reads values of a records file by their kinds, and builds the paths of faults.
//!
//! A [`Reader`] is passed to each function that reads a part of the records file. [`RecordFault`] says where a file is
//! wrong. Each of these functions returns a fault with its path from the value that it reads. [`inside`] adds the name
//! of a member before that path, and [`inside_element`] the number of an element.
#![tactic(auto)]

mod json_numbers;
mod record_fault;
mod value_reader;
mod values;

pub use json_numbers::{signed, unsigned};
pub use record_fault::{RecordFault, inside, inside_element, out_of_range, wanted};
pub use value_reader::{FIRST_VERSION, Reader, SECOND_VERSION};
pub use values::{array, boolean, object, text};
