//! Lines, fields and whole numbers of a text: a cursor that goes over a text once and allocates nothing.
//!
//! `next_line` takes the next line that has a field, with its number, `next_field` the next field of a line, and
//! `whole_number` and `tag` say which number a field is. Each is exact: what it answers is what `specs/Lines.antt` says of
//! the bytes.
#![tactic(auto)]

pub mod cursor;
pub mod exact;
pub mod laws;
pub mod line_numbers;
pub mod numbers;

pub use cursor::{has_field, next_field, next_line};
pub use exact::{field_count, four_fields, is_word, one_field, three_fields};
pub use line_numbers::line_count;
pub use numbers::{DIGIT_LIMIT, WHOLE_LIMIT, tag, unsigned_number, whole_number};
