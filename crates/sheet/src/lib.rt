// The text layer of sheets: bytes become fields with their places, typed lines and faults, and contracts become lines.
#![tactic(auto)]

mod cut;
mod fault;
mod field;
mod flexible_line;
mod form;
mod line;
mod line_buffer;
mod line_fields;
mod line_reader;
mod line_text;
mod listed_line;
mod market_number;
mod number;
mod reader;
mod stored;
mod text;
mod too_short;
mod write;

pub use fault::{BookCause, Fault, Layer, LineCause};
pub use field::Field;
pub use form::{Form, Word};
pub use line::{Line, PositionLine};
pub use line_buffer::LineBuffer;
pub use market_number::MarketNumber;
pub use number::{decimals_are_inverse, long_number, quantity, short_number};
pub use reader::Reader;
pub use stored::Stored;
pub use too_short::TooShort;
pub use write::{head_line, number_line, position_line, write_head, write_number, write_position};
