//! What lines add to the ledger's file, and what is answered to them.

ghost use Rattle.std.specs.Prelude.{◌≡◌, ◌++◌, ◌∷◌, [], ℕ, List, false, if◌then◌else◌, OnOk};
ghost use Rattle.batch_frames.specs.Texts.{digest_of};
ghost use Rattle.batch_frames.specs.Decodes.{IsFrameOf};
ghost use Rattle.collector_answers.specs.Judging.{LIMIT};
ghost use Rattle.collector_answers.specs.Lines.{line_of};
ghost use Rattle.collector_core.specs.Ledgers.{digests_of};
ghost use Rattle.record_lines.specs.Cutting.{HasCut};
ghost use Rattle.record_lines.specs.Lines.{cut_of};
ghost use Rattle.collect_rounds.specs.Collecting.{answer_by, behind_rest};
ghost use Rattle.collect_rounds.specs.Takes.{TakesJudged, TakesLine, TakesPiece, line_by, rest_after, standing_of};
ghost use Rattle.collector_answers.specs.declared.judging.Judged.TheVariants.{Framed};

use batch_frames::Frame;
use collector_answers::{Answer, BadAnswer, Digest, FRAME_LIMIT, Judged, judge, push_answer};
use collector_core::{Ledger, Receipt};
use collector_ledger::OpenedLedger;
use osq_value::{Bytes, NoMemory, Str};
use record_lines::{Cut, LineCutter};
use std::alloc::Global;

/// A ledger, the lines that aren't cut yet, and what is to be written.
#[derive(Drop)]
pub(crate) struct Collector {
    alloc: Global,
    ledger: Ledger,
    has_rest: bool,
    cutter: LineCutter,
    /// What is to be added to the ledger's file.
    pub(crate) added: Bytes,
    /// What is to be answered.
    pub(crate) answers: Bytes,
}

/// What is answered to a frame with this receipt, where so many frames of its host are recorded behind it.
fn answer_by(host: Str, number: u64, recorded: u64, receipt: Receipt) -> Answer
    ensures { result ≡ answer_by host number recorded receipt }
{
    match receipt {
        Receipt::Recorded => Answer::Recorded {
            host,
            number,
            recorded,
        },
        Receipt::Repeat => Answer::Repeat {
            host,
            number,
            recorded,
        },
        Receipt::Gap { recorded: _ } => Answer::Gap {
            host,
            number,
            recorded,
        },
        Receipt::Conflict {
            number: _,
            kept,
            found,
        } => Answer::Conflict {
            host,
            number,
            recorded,
            kept,
            found,
        },
    }
}

impl Collector {
    /// A collector of this ledger, of a stream of which no byte has come.
    pub(crate) fn new(alloc: Global, opened: OpenedLedger) -> Collector
        ensures ledger { result.ledger ≡ opened.ledger }
        ensures rest { result.has_rest ≡ opened.has_rest }
        ensures limit { result.cutter.limit ≡ LIMIT }
        ensures stands { HasCut result.cutter 0 [] }
    {
        Collector {
            alloc,
            ledger: opened.ledger,
            has_rest: opened.has_rest,
            cutter: LineCutter::new(alloc, FRAME_LIMIT, 0),
            added: Bytes::new(alloc),
            answers: Bytes::new(alloc),
        }
    }

    /// Ends the rest that the file ends with, where there is one.
    fn end_rest(&mut self) -> Result<(), NoMemory>
        ensures { OnOk result (self.new ≡ record self.old { added = self.old.added ++ (if self.old.has_rest then 10 ∷ [] else []); has_rest = false }) }
    {
        if !self.has_rest {
            return Ok(());
        }
        self.has_rest = false;
        self.added.extend(b"\n")
    }

    /// Adds the line of a frame that is recorded now.
    fn add_line(&mut self, line: &[u8]) -> Result<(), NoMemory>
        ensures { OnOk result (self.new ≡ record self.old { added = self.old.added ++ behind_rest self.old.has_rest (line.now ++ 10 ∷ []); has_rest = false }) }
    {
        self.end_rest()?;
        self.added.extend(line)?;
        self.added.extend(b"\n")
    }

    /// Adds the line of a frame with this receipt, where it is recorded now.
    fn add_recorded(&mut self, line: &[u8], receipt: Receipt) -> Result<(), NoMemory>
        ensures { OnOk result (self.new ≡ record self.old { added = self.old.added ++ behind_rest self.old.has_rest (line_by receipt line.now); has_rest = rest_after self.old.has_rest (line_by receipt line.now) }) }
    {
        match receipt {
            Receipt::Recorded => self.add_line(line),
            Receipt::Repeat | Receipt::Gap { .. } | Receipt::Conflict { .. } => Ok(()),
        }
    }

    fn add_answer(&mut self, answer: &Answer) -> Result<(), NoMemory>
        ensures { OnOk result (self.new ≡ record self.old { answers = self.old.answers ++ line_of answer.now ++ 10 ∷ [] }) }
    {
        push_answer(self.alloc, &mut self.answers, answer)?;
        self.answers.extend(b"\n")
    }

    /// Receives a frame, whose line this is.
    fn receive(&mut self, line: &[u8], frame: Frame, digest: Digest) -> Result<(), NoMemory>
        requires frame { IsFrameOf line.now frame }
        requires digest { digest ≡ digest_of frame }
        ensures takes { OnOk result (TakesJudged (standing_of self.old) (Framed frame digest ∷ []) (standing_of self.new)) }
        ensures cutter { OnOk result (self.new.cutter ≡ self.old.cutter) }
    {
        let receipt = self.ledger.receive(self.alloc, &frame, digest)?;
        self.add_recorded(line, receipt)?;
        let recorded = self.ledger.recorded(&frame.host);
        let number = frame.batch.number;
        let answer = answer_by(frame.host, number, recorded, receipt);
        self.add_answer(&answer)
    }

    fn take_line(&mut self, line: &[u8]) -> Result<(), NoMemory>
        ensures takes { OnOk result (TakesLine (standing_of self.old) line.now (standing_of self.new)) }
        ensures cutter { OnOk result (self.new.cutter ≡ self.old.cutter) }
    {
        match judge(self.alloc, line)? {
            Judged::Bad { kind } => self.add_answer(&Answer::Bad { kind }),
            Judged::Framed { frame, digest } => self.receive(line, frame, digest),
        }
    }

    fn take_cut(&mut self, cut: Cut) -> Result<(), NoMemory>
        ensures takes { (end : ℕ) → (line : List ℕ) → cut ≡ cut_of LIMIT end line → OnOk result (TakesLine (standing_of self.old) line (standing_of self.new)) }
        ensures cutter { OnOk result (self.new.cutter ≡ self.old.cutter) }
    {
        match cut {
            Cut::Line(line) => self.take_line(line.text.as_slice()),
            Cut::Skipped { end: _ } => self.add_answer(&Answer::Bad {
                kind: BadAnswer::TooLong,
            }),
        }
    }

    /// Takes the lines that end in the next piece of the stream. What they add and what is answered to them is to be written then, and
    /// nothing else.
    pub(crate) fn take_piece(&mut self, piece: &[u8]) -> Result<(), NoMemory>
        ensures { (start : ℕ) → (begun : List ℕ) → self.old.cutter.limit ≡ LIMIT → HasCut self.old.cutter start begun → OnOk result (TakesPiece self.old begun piece.now self.new) }
    {
        self.added = Bytes::new(self.alloc);
        self.answers = Bytes::new(self.alloc);
        self.cutter.feed(piece)?;
        while let Some(cut) = self.cutter.take_line() {
            self.take_cut(cut)?;
        }
        Ok(())
    }
}
