ghost use Rattle.std.specs.Prelude.{◌≡◌, ℕ, ◌+◌, ◌<◌, ◌≤◌, ◌^◌, List, [], ◌∷◌, ◌++◌, length, OnOk, OnErr, IfNone, IfSome};
ghost use Rattle.std.specs.Option.{option_to_list};
ghost use Rattle.record_lines.specs.Held.{text_size, texts_size};
ghost use Rattle.record_lines.specs.Lines.{HasNoFeed};

use crate::later::cut_all;
use crate::line::Cut;
use crate::partial::Partial;
use memchr::memchr;
use osq_value::NoMemory;
use std::alloc::Global;
use std::collections::VecDeque;
use std::marker::Model;
use std::mem;

/// No stream is read past this offset.
const LAST_OFFSET: u64 = (1 << 63) - 1;

/// Cuts a stream into lines at its line feeds, in whatever pieces its bytes come. A line that is longer than the limit is skipped: its
/// bytes aren't kept.
///
/// Offsets and the limit are in bytes.
///
/// ```
/// let mut cutter = LineCutter::new(alloc, 4, 100);
/// cutter.feed(b"a\nlonger\nre")?;
/// cutter.take_line()        // the line `a`, whose end is 102
/// cutter.take_line()        // Some(Cut::Skipped { end: 109 })
/// cutter.take_line()        // None: `re` has no line feed yet
/// ```
#[derive(Drop)]
pub struct LineCutter {
    alloc: Global,
    limit: u64,
    ready: VecDeque<Cut>,
    begun: u64,
    partial: Partial,
}

impl Model for LineCutter {
    ghost use Rattle.std.specs.Prelude.{ℕ, ◌+◌, ◌<◌, ◌≤◌, ◌^◌, length};
    ghost use Rattle.record_lines.specs.Cutting.{Cutter};
    ghost use Rattle.record_lines.specs.Held.{IsBounded};

    ghost Value = { Cutter };

    ghost view = { λ s. record { limit = s.limit; ready = s.ready.items; begun = s.begun; partial = s.partial } };

    ghost invariant = { λ s. (s.begun + s.partial.size < 2 ^ 64) × IsBounded s.limit s.begun s.ready.items s.partial };
}

impl LineCutter {
    ghost use Rattle.record_lines.specs.Cutting.{HasCut, TakesLine};
    ghost use Rattle.record_lines.specs.Held.{held_by};

    /// A cutter of a stream that begins at this offset. It skips the lines that have more than `limit` bytes.
    pub fn new(alloc: Global, limit: u64, offset: u64) -> Self
        ensures limit { result.limit ≡ limit }
        ensures stands { HasCut result offset [] }
    {
        LineCutter {
            alloc,
            limit,
            ready: VecDeque::new(alloc),
            begun: offset,
            partial: Partial::new(alloc),
        }
    }

    /// The stream so far grows by the piece. Where memory is wanting it stays as it was; a stream that would pass 2^63 bytes is answered
    /// so too.
    pub fn feed(&mut self, piece: &[u8]) -> Result<(), NoMemory>
        ensures ok { (start : ℕ) → (stream : List ℕ) → HasCut self.old start stream → OnOk result (HasCut self.new start (stream ++ piece.now)) }
        ensures limit { self.new.limit ≡ self.old.limit }
        ensures err { OnErr result (self.new ≡ self.old) }
    {
        let fed = self.begun + self.partial.size;
        if piece.len() as u64 > LAST_OFFSET.saturating_sub(fed) {
            return Err(NoMemory);
        }
        let Some(at) = memchr(b'\n', piece) else {
            return self.partial.grow(self.alloc, self.limit, piece);
        };
        let (front, behind) = piece.split_at(at);
        let (_, behind) = behind.split_at(1);
        self.end_line(front, behind)
    }

    /// The line that was begun ends with `front`, and these bytes come behind its line feed.
    fn end_line(&mut self, front: &[u8], behind: &[u8]) -> Result<(), NoMemory>
        requires { self.old.begun + self.old.partial.size + length front.now + 1 + length behind.now < 2 ^ 64 }
        ensures ok { (start : ℕ) → (stream : List ℕ) → HasCut self.old start stream → HasNoFeed front.now → OnOk result (HasCut self.new start (stream ++ front.now ++ 10 ∷ behind.now)) }
        ensures limit { self.new.limit ≡ self.old.limit }
        ensures err { OnErr result (self.new ≡ self.old) }
    {
        let end = self.begun + self.partial.size + front.len() as u64 + 1;
        let mut later = cut_all(self.alloc, self.limit, end, behind)?;
        // From here on nothing that changes the cutter may fail but the first.
        self.ready.reserve(1 + later.cuts.len())?;
        self.partial.grow(self.alloc, self.limit, front)?;
        let line = mem::replace(&mut self.partial, later.partial);
        self.ready
            .push_back_reserved(line.into_cut(self.limit, end));
        let _ = self.ready.append(&mut later.cuts);
        self.begun = later.begun;
        Ok(())
    }

    /// The next line of the stream that has its line feed, without it, or that it was skipped. None exactly where no further line feed was
    /// fed.
    pub fn take_line(&mut self) -> Option<Cut>
        ensures none { (start : ℕ) → (stream : List ℕ) → HasCut self.old start stream → IfNone result (HasNoFeed stream) }
        ensures some { (start : ℕ) → (stream : List ℕ) → HasCut self.old start stream → IfSome result (λ cut. TakesLine self.old self.new start stream cut) }
        ensures same { IfNone result (self.new ≡ self.old) }
        ensures ready { self.old.ready ≡ option_to_list result ++ self.new.ready }
        ensures bounded { IfNone result (held_by self.new ≤ self.new.limit) }
    {
        self.ready.pop_front()
    }

    /// How many bytes of text it keeps: those of the lines that are ready, and those of the line that was begun. Behind a `take_line` that gave none
    /// it is at most the limit. It takes no memory.
    pub fn held(&self) -> u64
        ensures { result ≡ held_by self.now }
    {
        let (front, back) = self.ready.as_slices();
        let size = with_texts(self.partial.bytes.len() as u64, front);
        with_texts(size, back)
    }
}

/// The size, with the bytes of these lines.
fn with_texts(begun: u64, cuts: &[Cut]) -> u64
    requires { begun + texts_size cuts.now < 2 ^ 64 }
    ensures { result ≡ begun + texts_size cuts.now }
{
    let mut size = begun;
    for cut in cuts {
        size += text_len(cut);
    }
    size
}

/// How many bytes a line has; none where it was skipped.
fn text_len(cut: &Cut) -> u64
    ensures { result ≡ text_size cut.now }
{
    match cut {
        Cut::Line(line) => line.text.len() as u64,
        Cut::Skipped { .. } => 0,
    }
}
