//! Errors of a session's state, and of what keeps a list.

use crate::printed::print_errors;
use batch_keeper::KeeperError;
use event_store::StoreError;
use kept_tables::TableError;
use osq_value::TableId;
use session_state::{AppendError, TickRefusal};
use std::io;

const TICKS: [TickRefusal; 4] = [
    TickRefusal::StillDue { at: 3 },
    TickRefusal::ExpiryOwed {
        table: TableId::SOCKET_EVENTS,
    },
    TickRefusal::ExpiryOwed {
        table: TableId::NONE,
    },
    TickRefusal::NoMemory,
];

const APPENDS: [AppendError; 3] = [
    AppendError::Backwards { kept: 20 },
    AppendError::NumbersSpent,
    AppendError::NoMemory,
];

pub(crate) fn print<R: Print>(rt: &R) -> io::Result<()> {
    print_errors(
        rt,
        "StoreError",
        &[StoreError::NumbersSpent, StoreError::NoMemory],
    )?;
    print_errors(rt, "TickRefusal", &TICKS)?;
    print_errors(rt, "AppendError", &APPENDS)?;
    print_errors(
        rt,
        "KeeperError",
        &[KeeperError::Fault, KeeperError::NoMemory],
    )?;
    print_errors(
        rt,
        "TableError",
        &[TableError::Unreadable, TableError::NoMemory],
    )
}
