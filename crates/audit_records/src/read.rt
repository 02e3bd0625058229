//! What a line of an audit log says.
ghost use Rattle.std.specs.Prelude.{option_and_then, IfOk, IsErrOf};
ghost use Rattle.audit_records.specs.declared.line.AuditLine.{AuditLine};
ghost use Rattle.audit_records.specs.Grammar.{IsLine};
ghost use Rattle.audit_records.specs.Lines.{head_of, line_of, with_fields};
ghost use Rattle.audit_records.specs.Reads.{Reads};

use crate::error::AuditLineError;
use crate::fields::read_fields;
use crate::head::head_of;
use crate::line::AuditLine;
use osq_value::Str;
use std::alloc::Global;

/// Reads a line of an audit log, without its line feed: UTF-8 text of the form `node=WORD type=T msg=audit(S.M:N): FIELDS`. The node
/// may be missing, and the fields with the blank before them. A blank is a space or the byte 1D. T has capital letters, digits and
/// `_`. S has 1 to 12 digits, M has 3, and N has 1 to 20 and is below 2^64.
///
/// A field is `key=value`, and fields are parted by blanks. A value that begins with `"` or `'` runs to the next one of its kind,
/// behind which stands a blank or the end. Any other value runs to the next blank, and may be empty. A word without `=` is passed
/// over; a word that begins with `=` is in no line.
///
/// BadLine exactly where the text isn't in this form.
///
/// ```
/// let line = read_line(alloc, b"type=CWD msg=audit(1700000000.123:456): cwd=\"/home/ann\"")?;
/// line.kind.as_str()        // "CWD"
/// line.id.millis            // 123
/// line.fields.len()         // 1: the key `cwd`, the text `/home/ann`, quoted
/// read_line(alloc, b"type=cwd msg=audit(1.000:2):")   // Err(AuditLineError::BadLine): a type has capital letters
/// ```
pub fn read_line(alloc: Global, text: &[u8]) -> Result<AuditLine, AuditLineError>
    ensures read { Reads (line_of text.now) result }
    ensures line { IfOk result (λ line. IsLine text.now line) }
    ensures bad { IsErrOf result AuditLineError.BadLine → (line : AuditLine) → ¬ IsLine text.now line }
{
    match simdutf8::compat::from_utf8(text) {
        Ok(text) => read_text(alloc, text),
        Err(_) => Err(AuditLineError::BadLine),
    }
}

fn read_text(alloc: Global, text: &str) -> Result<AuditLine, AuditLineError>
    ensures { Reads (option_and_then with_fields (head_of text.now)) result }
{
    let Some(head) = head_of(text) else {
        return Err(AuditLineError::BadLine);
    };
    let fields = read_fields(alloc, head.fields)?;
    let kind = Str::of(alloc, head.kind)?;
    Ok(AuditLine {
        id: head.id,
        kind,
        fields,
    })
}
