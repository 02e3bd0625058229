//! Links over streams.

use crate::FileLink;
use batch_forwarder::{Link, LinkError};
use osq_outside::{Fail, FailList, FileSink, MemorySink, MemorySource};
use osq_value::{Bytes, NoMemory};
use std::alloc::Global;
use std::io::{self, ErrorKind, Write};
use std::test::Fail as Failed;

/// A writer whose call of one number fails.
#[derive(Drop)]
struct Failing {
    call: u64,
    fails: u64,
    taken: Bytes,
}

impl Write for Failing {
    fn write(&mut self, buf: &[u8]) -> io::Result<usize> {
        self.call = self.call.saturating_add(1);
        if self.call == self.fails || self.taken.extend(buf).is_err() {
            return Err(io::Error::from(ErrorKind::Other));
        }
        Ok(buf.len())
    }

    fn flush(&mut self) -> io::Result<()> {
        Ok(())
    }
}

/// A source with no byte.
fn nothing(alloc: Global) -> MemorySource {
    MemorySource::new(Bytes::new(alloc), FailList::new(alloc))
}

/// Which of three frames are sent.
fn sent(alloc: Global, writer: &mut Failing) -> [bool; 3] {
    let mut link = FileLink::new(alloc, FileSink::new(writer), nothing(alloc), 0);
    [
        link.append(b"ab").is_ok(),
        link.append(b"cd").is_ok(),
        link.append(b"ef").is_ok(),
    ]
}

#[test]
fn frames_are_lines(rt: HostRuntime) {
    let alloc = rt.alloc();
    for (fails, are_sent, written) in [
        (0, [true, true, true], "ab\ncd\nef\n"),
        (1, [false, true, true], "\ncd\nef\n"),
        (4, [true, false, true], "ab\ncd\nef\n"),
        (6, [true, true, false], "ab\ncd\nef"),
    ] {
        let mut writer = Failing {
            call: 0,
            fails,
            taken: Bytes::new(alloc),
        };
        assert_eq!(rt; sent(alloc, &mut writer), are_sent, "at {fails}");
        assert_eq!(rt; writer.taken.as_slice(), written.as_bytes(), "at {fails}");
    }
}

/// Two lines, one of so many bytes, one more, and a rest.
fn answers(alloc: Global, len: usize) -> Result<Bytes, NoMemory> {
    let mut text = Bytes::new(alloc);
    text.extend(b"one\n\n")?;
    for _ in 0..len {
        text.push(b'x')?;
    }
    text.extend(b"\ntwo\nrest")?;
    Ok(text)
}

/// A link with these answers, of which the first read fails.
fn link_of(alloc: Global, text: Bytes) -> Result<FileLink<MemorySink, MemorySource>, NoMemory> {
    let size = text.len() as u64;
    let mut fails = FailList::new(alloc);
    fails.push(Fail { call: 1 })?;
    let sink = MemorySink::new(alloc, FailList::new(alloc));
    Ok(FileLink::new(alloc, sink, MemorySource::new(text, fails), size))
}

#[test]
fn answers_are_whole_lines(rt: HostRuntime) -> Result<(), Failed> {
    let alloc = rt.alloc();
    let mut link = link_of(alloc, answers(alloc, 65537)?)?;
    assert!(rt; matches!(link.poll(), Err(LinkError::Fault)));
    for line in ["one", "", "two"] {
        let polled = link.poll();
        assert!(rt;
            matches!(&polled, Ok(Some(answer)) if answer.as_slice() == line.as_bytes()),
            "{line}"
        );
    }
    for _ in 0..2 {
        assert!(rt; matches!(link.poll(), Ok(None)));
    }
    Ok(())
}
