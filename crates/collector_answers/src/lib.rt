//! What a collector makes of the lines that it is sent: the frame that a line is, and the one text of what is answered to it.
#![tactic(auto)]

pub mod answer;
mod held;
pub mod judging;
pub mod line;
pub mod read;

pub use answer::{Answer, BadAnswer, Digest};
pub use judging::{FRAME_LIMIT, Judged, judge};
pub use line::{answer_line, push_answer};
pub use read::read_answer;
