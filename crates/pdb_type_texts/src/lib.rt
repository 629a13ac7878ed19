//! Defines the printed text of types, functions and ids, with laws, pieces of text, and steps of printing.
//!
//! A document describes a text to be printed. The specs define the document of each type, signature and id, and
//! [`signature_laws`] has laws on them. The functions write the pieces of text of which documents consist. [`progress`]
//! holds the steps that are still to be done, so that deep documents don't need deep recursion.
#![tactic(auto)]

pub mod attributes;
mod dimensions;
pub mod flag_tests;
mod namespaces;
mod primitive_names;
pub mod print_error;
pub mod printed_texts;
pub mod progress;
pub mod seen;
pub mod signature_laws;
pub mod tasks;
pub mod this;
pub mod wording;
