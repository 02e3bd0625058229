//! The parts of a session: it opens, a tick begins, the sources are read and their readings appended, due queries are answered, what is too old
//! expires, and what was added is sealed and told.
#![tactic(auto)]

mod answering;
mod appending;
mod configuration;
mod configuring;
pub mod error;
mod filling;
mod finishing;
mod moments;
mod opening;
mod order;
mod rounding;
mod sealing;
mod session;
mod settling;
pub mod setup;
mod starting;
mod telling;
mod ticking;
mod turning;

pub use answering::answer_due;
pub use configuration::read_configuration;
pub use configuring::{configure, discover};
pub use error::{FinishError, OpenError, RoundError, StartError, TakeError, TurnError};
pub use filling::{asks_again, fill_tick};
pub use finishing::{answer_and_settle, finish_tick};
pub use moments::{MomentTooLarge, read_moment};
pub use opening::begin_session;
pub use order::{AtOnce, InTurn, TakesRound, round_in_turn};
pub use rounding::take_round;
pub use sealing::{SealError, seal};
pub use session::{Session, open_session};
pub use settling::settle;
pub use starting::{open_feeds, start_feeds, start_sources};
pub use telling::lines_of_entries;
pub use turning::Which;
