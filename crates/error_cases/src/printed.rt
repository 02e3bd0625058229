//! What is printed of an error.

use std::error::Error;
use std::io;

/// Prints a line of each of these errors, which are of the type of this name.
pub(crate) fn print_errors<R: Print, E: Error>(rt: &R, name: &str, errors: &[E]) -> io::Result<()> {
    for error in errors {
        println!(rt; "{name} {error:?}: {error}")?;
    }
    Ok(())
}
