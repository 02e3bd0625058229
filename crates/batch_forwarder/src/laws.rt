//! The laws of frames that are sent and of marks, which speak of the definitions alone.

ghost use Rattle.batch_forwarder.specs.Laws.{AcksMayFollow, CommitsAreSent, HaveOneText, MarksAreOne, StayFrames};

/// Two frames of one host and number have one text: over one list, since its batch of that number is one; and over a list and what it becomes,
/// since a frame stays that of its number when batches are added.
pub fn frames_have_one_text()
    ensures one { HaveOneText }
    ensures stay { StayFrames }
{}

/// Each batch of a legal list can be sent: its text is accepted, and its frame is valid for every host whose name has 1 to 255 bytes. The list
/// has fewer than 2^63 entries.
pub fn commits_are_sent()
    ensures { CommitsAreSent }
{}

/// A line gives a host one mark, or none.
pub fn marks_are_one()
    ensures { MarksAreOne }
{}

/// What answers acknowledge behind a legal list, whose batches are all sealed, may follow it.
pub fn acks_may_follow()
    ensures { AcksMayFollow }
{}
