//! The collector's ledger: which batches of which host are recorded.
#![tactic(auto)]

pub mod laws;
pub mod ledger;
pub mod receipt;

pub use ledger::Ledger;
pub use receipt::Receipt;
