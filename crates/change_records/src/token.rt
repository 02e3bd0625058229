//! Values of a line's JSON, read by its tokens: nothing is kept of what lies within them.

ghost use Rattle.std.specs.Prelude.{◌≡◌, ◌==◌, ◌<◌, length, slice_index, true, false, Some, None, IfOk, OnOk, OnErr, IsTrue, option_map};
ghost use Rattle.json.specs.Json.{items, members, value};
ghost use Rattle.serde_json.specs.Data.{Data, Items, Members, no_members};
ghost use Rattle.serde_json.specs.Read.{converted, number_from, number_of, of_items, of_json, of_members};
ghost use Rattle.serde_json.specs.View.{number_view};
ghost use Rattle.change_records.specs.Tokens.{shallow_view, surface};

use fast_float::Numeral;
use json::{Invalid, Reader, Token};
use serde_json::Number;

/// So deep may a line nest, its own object counted.
pub const MOST_DEPTH: usize = 127;

/// A value, of which an array and an object are told only as such.
#[derive(Clone, Copy)]
pub enum Shallow<'a> {
    Null,
    Bool(bool),
    Number(Number),
    Text(&'a str),
    Array,
    Object,
}

/// Reads the value that comes next, whose arrays and objects may nest so deep.
#[cycle(read)]
#[inline(always)]
pub fn read<'a>(reader: &mut Reader<'a>, depth: usize) -> Result<Shallow<'a>, Invalid>
    ensures ok { IfOk result (λ found. (whole : Data) × (converted of_json (value depth reader.old) ≡ Some (whole, reader.new)) × (shallow_view found ≡ surface whole)) }
    ensures err { OnErr result (converted of_json (value depth reader.old) ≡ None) }
    ensures shorter { OnOk result (length reader.new < length reader.old) }
{
    let token = reader.next().ok_or(Invalid)?;
    match token {
        Token::Null => Ok(Shallow::Null),
        Token::Bool(truth) => Ok(Shallow::Bool(truth)),
        Token::String(text) => Ok(Shallow::Text(text)),
        Token::Number(text) => match number(text) {
            Some(number) => Ok(Shallow::Number(number)),
            None => Err(Invalid),
        },
        Token::EndObject | Token::EndArray | Token::Key(_) | Token::Bad => Err(Invalid),
        Token::BeginArray => {
            if depth == 0 {
                return Err(Invalid);
            }
            pass_items(reader, depth - 1)?;
            Ok(Shallow::Array)
        }
        Token::BeginObject => {
            if depth == 0 {
                return Err(Invalid);
            }
            pass_members(reader, depth - 1)?;
            Ok(Shallow::Object)
        }
    }
}

/// Passes the items of an array and its closing bracket.
#[cycle(read)]
#[inline(never)]
fn pass_items(reader: &mut Reader<'_>, depth: usize) -> Result<(), Invalid>
    ensures ok { OnOk result ((passed : Items) × (converted of_items (items (value depth) (length reader.old) reader.old) ≡ Some (passed, reader.new))) }
    ensures err { OnErr result (converted of_items (items (value depth) (length reader.old) reader.old) ≡ None) }
    ensures shorter { OnOk result (length reader.new < length reader.old) }
{
    'items: while !reader.take_end_array() {
        read(reader, depth)?;
    }
    Ok(())
}

/// Passes the members of an object and its closing brace.
#[cycle(read)]
#[inline(never)]
fn pass_members(reader: &mut Reader<'_>, depth: usize) -> Result<(), Invalid>
    ensures ok { OnOk result ((passed : Members) × (converted (λ given. of_members given no_members) (members (value depth) (length reader.old) reader.old) ≡ Some (passed, reader.new))) }
    ensures err { OnErr result (converted (λ given. of_members given no_members) (members (value depth) (length reader.old) reader.old) ≡ None) }
    ensures shorter { OnOk result (length reader.new < length reader.old) }
{
    'members: while let Some(_) = reader.next_key()? {
        read(reader, depth)?;
    }
    Ok(())
}

/// The number of a token's text, none where it lies beyond every double.
#[inline(always)]
fn number(text: &str) -> Option<Number>
    ensures { option_map number_view result ≡ number_of text.now }
{
    let bytes = text.as_bytes();
    if has_minus(bytes) {
        negative(&Numeral::scan(&bytes[1..]))
    } else {
        unsigned(&Numeral::scan(bytes))
    }
}

#[inline(always)]
fn has_minus(bytes: &[u8]) -> bool
    ensures value { result ≡ (slice_index bytes.now 0 == 45) }
    ensures some { IsTrue result → 0 < length bytes.now }
{
    !bytes.is_empty() && bytes[0] == b'-'
}

#[inline(always)]
fn unsigned(numeral: &Numeral<'_>) -> Option<Number>
    ensures { option_map number_view result ≡ number_from false numeral.now }
{
    match numeral.to_u64() {
        Some(number) => Number::from_u128(u128::from(number)),
        None => Number::from_f64(numeral.to_float::<f64>(false)),
    }
}

#[inline(always)]
fn negative(numeral: &Numeral<'_>) -> Option<Number>
    ensures { option_map number_view result ≡ number_from true numeral.now }
{
    if let Some(number) = numeral.to_i64(true) {
        if number < 0 {
            return Number::from_i128(i128::from(number));
        }
    }
    Number::from_f64(numeral.to_float::<f64>(true))
}
