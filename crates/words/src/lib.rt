// The words of the C boundary: a profile read from words, and answer, chain row and report told in words. A number is its
// word; a figure in seconds is the bits of its binary64.
#![tactic(auto)]

pub mod answer_words;
pub mod config_words;
pub mod report_words;
pub mod row_words;
pub mod seconds;

pub use answer_words::{answer_word, write_answer};
pub use config_words::{PROFILE_WORDS, profile_of};
pub use report_words::{REPORT_WORDS, write_report};
pub use row_words::{ROW_WORDS, write_row};
pub use seconds::{Finite, SecondsWord};
