//! Numbers, words, dates and moments as text: what a text states, and what is printed.
#![tactic(auto)]

mod blanks;
mod digits;
mod extended_text;
mod laws;
mod moment;
mod offset;
mod physical;
mod plain;
mod print;
mod side;
mod unfold;
mod values;
mod whole_numbers;
mod words;
mod years;

pub use blanks::{TextPart, trim, trimmed_part};
pub use digits::{Digits, number};
pub use extended_text::{extended, plain_extended};
pub use laws::printed_texts_differ;
pub use moment::{all_digits, basic, is_letter_t};
pub use offset::offset_of;
pub use physical::take_line;
pub use plain::{is_text, without_mark};
pub use print::{
    push_basic, push_extended, push_extended_date, push_extended_time, push_number, push_unsigned,
};
pub use rr_model::Stamp;
pub use side::side_text;
pub use unfold::{begins_blank, lines, lines_from};
pub use values::{line_value, moment_of, split_once};
pub use whole_numbers::{interval_of, is_number, number_up_to, whole_number};
pub use words::{is_word, weekday_named, weekday_of, weekday_text};
pub use years::later_in_years;
