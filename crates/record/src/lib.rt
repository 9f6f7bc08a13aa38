// Fare records: read, written, and held in a view. Unsigned types are copied as u32, signed ones as i32.
#![tactic(auto)]

mod fare;
mod form;
mod read;
mod views;
mod writer;

pub use fare::{Element, Fare, Place};
pub use form::{Form, Size, form_of};
pub use read::copy;
pub use views::{RecordView, as_signed, as_unsigned, element, element_at, view, view_element};
pub use writer::write;
