//! The configuration of a host and its query packs, as a JSON document gives them.
#![tactic(auto)]

mod category;
pub mod config;
pub mod document;
mod entry;
pub mod error;
mod field;
pub mod file;
mod option;
mod pack;
mod place;
pub mod read;

pub use config::{Config, Pack, PackList, QueryEntry, QueryEntryList, Rules};
pub use error::ConfigError;
pub use file::{PackFile, PackFileList, add_pack, pack_files, read_file};
pub use read::{held_queries, read_config};
