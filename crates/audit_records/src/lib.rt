//! Lines of a Linux audit log, their groups, and the event of a group.
#![tactic(auto)]

pub mod address;
pub mod arguments;
mod cuts;
pub mod error;
pub mod event;
pub mod execve;
mod fields;
pub mod group;
mod head;
pub mod line;
mod number;
pub mod process;
pub mod read;
pub mod socket;
pub mod value;

pub use error::AuditLineError;
pub use event::group_event;
pub use group::{AuditGroup, GroupBuilder};
pub use line::{AuditId, AuditLine, Field, FieldList};
pub use read::read_line;
