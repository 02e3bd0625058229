//! The words of the program's commands.
#![tactic(auto)]

pub mod command;
pub mod error;
pub mod laws;
mod name;
mod number;
mod options;
mod read;

pub use command::{
    CheckWords, CollectWords, CommandWords, DaemonWords, FleetWords, GenerateWords, LinkPaths,
    Paths, QueryWords, ReplayWords, ReportWords,
};
pub use error::WordsError;
pub use read::{is_by_threads, paths_of, read_words};
