//! What every frame is that stands in memory.

ghost use Rattle.std.specs.List.{AllByRecursion};
ghost use Rattle.std.specs.Str.{IsUtf8};
ghost use Rattle.batch_frames.specs.Texts.{IsHeld, IsHeldValue};

use batch_frames::Frame;
use osq_value::{Row, Str, Value};

/// A text is UTF-8.
fn held_text(text: &str)
    ensures { IsUtf8 text.now }
{
    let _bytes = text.as_bytes();
}

fn held_texts(texts: &[Str])
    ensures { AllByRecursion IsUtf8 texts.now }
{
    for text in texts {
        held_text(text.as_str());
    }
}

fn held_value(value: &Value)
    ensures { IsHeldValue value.now }
{
    match value {
        Value::Null => {}
        Value::Int(number) => {
            let _number = *number;
        }
        Value::Text(text) => held_text(text.as_str()),
    }
}

fn held_row(row: &[Value])
    ensures { AllByRecursion IsHeldValue row.now }
{
    for value in row {
        held_value(value);
    }
}

fn held_rows(rows: &[Row])
    ensures { AllByRecursion (λ row. AllByRecursion IsHeldValue row) rows.now }
{
    for row in rows {
        held_row(row.as_slice());
    }
}

/// A frame can be held: its texts are UTF-8, and its numbers have 64 bits. No line is at once the text of such a frame and bad.
pub(crate) fn held(frame: &Frame)
    ensures { IsHeld frame.now }
{
    held_text(frame.host.as_str());
    held_text(frame.batch.query.name.as_str());
    held_text(frame.batch.query.text.as_str());
    held_texts(frame.names.as_slice());
    held_rows(frame.batch.rows.as_slice());
}
