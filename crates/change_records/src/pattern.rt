ghost use Rattle.std.specs.Prelude.{◌≡◌, ◌↔◌, ℕ, List, [], ◌∷◌, ◌++◌, IsTrue, MatchOption};
ghost use Rattle.change_records.specs.Patterns.{MatchesBehindRun, MatchesPart, MatchesParts, MatchesPath, parts_of};

use memchr::{memchr, memmem};

/// Within a part of a path `%` stands for any run of bytes, and every other byte for itself.
fn part_matches(pattern: &[u8], part: &[u8]) -> bool
    ensures { IsTrue result ↔ MatchesPart pattern.now part.now }
{
    let Some(at) = memchr(b'%', pattern) else {
        return pattern == part;
    };
    let (front, pattern) = pattern.split_at(at);
    let (_, pattern) = pattern.split_at(1);
    match behind(part, front) {
        Some(rest) => matches_behind_run(pattern, rest),
        None => false,
    }
}

/// What stands behind a front part.
fn behind<'a>(bytes: &'a [u8], front: &[u8]) -> Option<&'a [u8]>
    ensures { MatchOption result ((rest : List ℕ) → bytes.now ≡ front.now ++ rest → ⊥) (λ rest. bytes.now ≡ front.now ++ rest.now) }
{
    if bytes.len() < front.len() {
        return None;
    }
    let (first, rest) = bytes.split_at(front.len());
    if first == front { Some(rest) } else { None }
}

/// Whether any run of bytes and then the pattern match. Each piece between two `%` is best taken where it first stands.
fn matches_behind_run(pattern: &[u8], part: &[u8]) -> bool
    ensures { IsTrue result ↔ MatchesBehindRun pattern.now part.now }
{
    let mut pattern = pattern;
    let mut part = part;
    while let Some(at) = memchr(b'%', pattern) {
        let (piece, rest) = pattern.split_at(at);
        let Some(found) = memmem::find(part, piece) else {
            return false;
        };
        let (_, behind) = part.split_at(found);
        let (_, behind) = behind.split_at(at);
        let (_, rest) = rest.split_at(1);
        pattern = rest;
        part = behind;
    }
    ends_with(part, pattern)
}

fn ends_with(bytes: &[u8], end: &[u8]) -> bool
    ensures { IsTrue result ↔ ((run : List ℕ) × (bytes.now ≡ run ++ end.now)) }
{
    if bytes.len() < end.len() {
        return false;
    }
    let (_, rest) = bytes.split_at(bytes.len() - end.len());
    rest == end
}

/// Whether a pattern matches a path. Both are split at `/`, and within a part `%` stands for any run of bytes. A last part that is
/// exactly `%%` stands for any rest of the path that has at least one byte. It takes no memory.
pub fn path_matches(pattern: &str, path: &str) -> bool
    ensures { IsTrue result ↔ MatchesPath pattern.now path.now }
{
    if pattern == "%%" {
        match memchr(b'/', path.as_bytes()) {
            Some(at) => at + 1 < path.len(),
            None => false,
        }
    } else {
        parts_match(pattern.as_bytes(), path.as_bytes())
    }
}

fn parts_match(pattern: &[u8], path: &[u8]) -> bool
    ensures { IsTrue result ↔ MatchesParts (parts_of pattern.now) (parts_of path.now) }
{
    let mut pattern = pattern;
    let mut path = path;
    while let Some(at) = memchr(b'/', pattern) {
        let Some(end) = memchr(b'/', path) else {
            return false;
        };
        let (first, rest) = pattern.split_at(at);
        let (part, behind) = path.split_at(end);
        if !part_matches(first, part) {
            return false;
        }
        let (_, rest) = rest.split_at(1);
        let (_, behind) = behind.split_at(1);
        pattern = rest;
        path = behind;
    }
    last_matches(pattern, path)
}

/// Whether the last part of a pattern matches what is left of a path.
fn last_matches(last: &[u8], path: &[u8]) -> bool
    ensures { IsTrue result ↔ MatchesParts (last.now ∷ []) (parts_of path.now) }
{
    if last == b"%%".as_slice() {
        !path.is_empty()
    } else {
        memchr(b'/', path).is_none() && part_matches(last, path)
    }
}
