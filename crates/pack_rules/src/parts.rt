//! Texts with separators.

ghost use Rattle.std.specs.Prelude.{◌≡◌, ◌≤◌, ◌∷◌, length};
ghost use Rattle.osq_value.specs.Casts.{behind_blanks, is_blank};
ghost use Rattle.pack_rules.specs.Parts.{before_blanks, parts_of, trimmed};
ghost use Rattle.pack_rules.specs.Walks.{bytes_left, parts_left};

/// The part before the first separator, and what stands behind that separator, where there is one.
#[tactic(auto, unfolding(crate::specs::Parts::parts_of))]
pub fn split_part(text: &[u8], separator: u8) -> (&[u8], Option<&[u8]>)
    ensures parts { parts_of separator text.now ≡ result.0.now ∷ parts_left separator result.1 }
    ensures shorter { bytes_left result.1 ≤ length text.now }
{
    for at in 0..text.len() {
        if text[at] == separator {
            let (part, rest) = text.split_at(at);
            let (_, behind) = rest.split_at(1);
            return (part, Some(behind));
        }
    }
    (text, None)
}

fn is_blank(byte: u8) -> bool
    ensures { result ≡ is_blank byte }
{
    byte == b' ' || (b'\t' <= byte && byte <= b'\r')
}

fn behind_blanks(text: &[u8]) -> &[u8]
    ensures { result.now ≡ behind_blanks text.now }
{
    let mut rest = text;
    while let [first, tail @ ..] = rest {
        if !is_blank(*first) {
            break;
        }
        rest = tail;
    }
    rest
}

fn before_blanks(text: &[u8]) -> &[u8]
    ensures { result.now ≡ before_blanks text.now }
{
    let mut rest = text;
    while let [front @ .., last] = rest {
        if !is_blank(*last) {
            break;
        }
        rest = front;
    }
    rest
}

/// The text without the blanks round it: spaces, tabs, line feeds, vertical tabs, form feeds and carriage returns.
pub fn trimmed(text: &[u8]) -> &[u8]
    ensures { result.now ≡ trimmed text.now }
{
    before_blanks(behind_blanks(text))
}
