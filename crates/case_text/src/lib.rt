//! What programs of rows share: values, rows and members of JSON lines as osqd's values, and osqd's values as text.
#![tactic(auto)]

mod answered;
mod given;
mod line;
mod outside;
mod parts;
mod shown;

pub use answered::{Bench, print_answers, print_told};
pub use given::{items_of, member_text, row_of, rows_of, value_of, values_of};
pub use line::{LineKind, json_of_line, kind_of, kind_of_row, odd_member};
pub use outside::{fails_of, files_of};
pub use parts::bytes_of;
pub use shown::{push_row, push_rows, push_value, push_values};
