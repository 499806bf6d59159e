//! Decimals in a text and places on a grid: a decimal of any length is read exactly, without a big
//! number and without memory, and a place on the grid is written as its shortest decimal.
//!
//! - `reading`, `writing`: the two calls on the grid. `laws`: what their definitions say together. `numbers`: whole numbers.
//! - `parts`: a text as the parts of a decimal. `quotient`: what a number of digits is at a power of ten.
#![tactic(auto)]

mod laws;
mod numbers;
mod parts;
mod quotient;
mod reading;
mod writing;

pub use laws::{answers_say_what_is_written, place_is_a_word};
pub use numbers::number_text;
pub use reading::to_grid;
pub use writing::grid_text;

/// The greatest size of a place, in grid units: the box that all places are in is 2^20 wide to each side.
pub const GREATEST_SIZE: u64 = 1_048_576;

/// The most digits after the point that a grid has: a scene asks for 0 to 9.
pub const FINEST_GRID: u8 = 9;

/// The most digits after the point that are written: 10^18 is the greatest power of ten in 64 bits with a sign.
pub const MOST_WRITTEN_DIGITS: u8 = 18;

/// What to do with a decimal that isn't on the grid.
#[derive(Clone, Copy, Debug, PartialEq, Eq)]
pub enum Snap {
    /// The nearest place is taken, a half away from zero.
    Nearest,
    /// It is refused.
    Exact,
}

/// Why a text has no place on the grid.
#[derive(Clone, Copy, Debug, PartialEq, Eq)]
pub enum DecErr {
    /// The text is no decimal.
    NotDecimal,
    /// The decimal has digits beyond the grid's, and no rounding was asked for.
    OffGrid,
    /// The place is beyond 2^20 in size.
    OutOfBox,
}
