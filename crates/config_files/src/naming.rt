//! How the error of a document is called.

ghost use Rattle.std.specs.Prelude.{◌≡◌, ◌++◌, OnOk};
ghost use Rattle.config_files.specs.Naming.{key_of_error, kind_of_error, left_out_line};

use control_escapes::push_text;
use osq_config::ConfigError;
use osq_value::{Bytes, NoMemory};

/// The name of an error.
pub fn kind_of(error: &ConfigError) -> &'static str
    ensures { result.now ≡ kind_of_error error.now }
{
    match error {
        ConfigError::NotJson => "NotJson",
        ConfigError::WrongShape { key: _ } => "WrongShape",
        ConfigError::OutOfRange { key: _ } => "OutOfRange",
        ConfigError::TooManyQueries => "TooManyQueries",
        ConfigError::NoMemory => "NoMemory",
    }
}

/// The key that an error names, by its path with dots; the empty text where it names none.
pub fn key_of(error: &ConfigError) -> &str
    ensures { result.now ≡ key_of_error error.now }
{
    match error {
        ConfigError::WrongShape { key } => key.as_str(),
        ConfigError::OutOfRange { key } => key.as_str(),
        ConfigError::NotJson => "",
        ConfigError::TooManyQueries => "",
        ConfigError::NoMemory => "",
    }
}

/// Adds the line that tells that the pack of this name is left out for this error. Control characters of the name are escaped.
pub(crate) fn push_note(notes: &mut Bytes, name: &str, error: &ConfigError) -> Result<(), NoMemory>
    ensures { OnOk result (notes.new ≡ notes.old ++ left_out_line name.now (kind_of_error error.now)) }
{
    notes.extend(b"osqd: pack ")?;
    push_text(notes, name.as_bytes())?;
    notes.extend(b" left out: ")?;
    notes.extend(kind_of(error).as_bytes())?;
    notes.extend(b"\n")
}
