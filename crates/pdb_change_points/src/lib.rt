//! The addresses at which frames may change.
//!
//! [`change_points`] lists the change points of a program's records: 0, and the addresses at which sections,
//! contributions, functions, line rows and inline ranges start and end. They divide the addresses into pieces, each
//! from one change point up to the next. All addresses of a piece have the same function and the same frames. So a
//! caller that walks over all code asks once per piece, and not once per byte:
//!
//! ```
//! let points = change_points(alloc, &records)?;
//! for point in &points {
//!     let found = context.find_frames(*point)?;
//!     // the same frames at each address below the next change point
//! }
//! ```
//!
//! The function of [`change_laws`] does nothing. Its contract states the law that frames change only at change points.
#![tactic(auto)]

pub mod change_laws;
mod module_points;
mod points;
mod program_points;
mod unique_numbers;

pub use program_points::change_points;
