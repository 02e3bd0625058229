//! The machine's streams, each as one type.

ghost use Rattle.osqd.specs.Opening.{IsNowhere};

use std::fs::{File, OpenOptions};
use std::io::{self, ErrorKind, Read, Stderr, Stdout, Write};

/// A source's file. One that can't be opened fails at its first read.
#[derive(Drop)]
pub enum Input {
    /// The file, open to be read.
    Opened(File),
    /// A file that couldn't be opened.
    Missing,
}

impl Input {
    /// The file of this path.
    pub(crate) fn open<R: std::rt::Files<File = File>>(rt: &R, path: &str) -> Input {
        match File::open(rt, path) {
            Ok(file) => Input::Opened(file),
            Err(_) => Input::Missing,
        }
    }
}

impl Read for Input {
    fn read(&mut self, buf: &mut [u8]) -> io::Result<usize> {
        match self {
            Input::Opened(file) => file.read(buf),
            Input::Missing => Err(io::Error::from(ErrorKind::NotFound)),
        }
    }
}

/// A file with as many bytes as it had when it was opened.
#[derive(Drop)]
pub struct Measured {
    /// The file.
    pub(crate) input: Input,
    /// Its bytes; more than any file has where it couldn't be opened, so that it is read, and the read fails.
    pub(crate) size: u64,
}

impl Measured {
    /// The file of this path.
    pub(crate) fn open<R: std::rt::Files<File = File>>(rt: &R, path: &str) -> Measured {
        match file_and_size(rt, path) {
            Ok((file, size)) => Measured {
                input: Input::Opened(file),
                size,
            },
            Err(_) => Measured {
                input: Input::Missing,
                size: u64::MAX,
            },
        }
    }

    /// No file, of which nothing is read.
    pub(crate) fn nothing() -> Measured {
        Measured {
            input: Input::Missing,
            size: 0,
        }
    }
}

/// The file of this path, and its bytes.
fn file_and_size<R: std::rt::Files<File = File>>(rt: &R, path: &str) -> io::Result<(File, u64)> {
    let file = File::open(rt, path)?;
    let size = file.metadata()?.len();
    Ok((file, size))
}

/// Where results, status lines, the lines of a ledger and frames go.
#[derive(Drop)]
pub enum Output {
    /// Standard output, for results.
    Results(Stdout),
    /// Standard error, for status lines.
    Status(Stderr),
    /// A file that is open at its end: a ledger's, or that of a link's frames.
    Appended(File),
    /// A file that couldn't be opened: each write fails.
    Unopened,
    /// Nothing keeps what is written here.
    Nowhere,
}

impl Output {
    /// The end of the file of this path, which is made where there is none.
    pub(crate) fn appended<R: std::rt::Files<File = File>>(rt: &R, path: &str) -> Output
        ensures { ¬ IsNowhere result }
    {
        match OpenOptions::new().append(true).create(true).open(rt, path) {
            Ok(file) => Output::Appended(file),
            Err(_) => Output::Unopened,
        }
    }
}

impl Write for Output {
    fn write(&mut self, buf: &[u8]) -> io::Result<usize> {
        match self {
            Output::Results(stdout) => stdout.write(buf),
            Output::Status(stderr) => stderr.write(buf),
            Output::Appended(file) => file.write(buf),
            Output::Unopened => Err(io::Error::from(ErrorKind::NotFound)),
            Output::Nowhere => Ok(buf.len()),
        }
    }

    fn flush(&mut self) -> io::Result<()> {
        match self {
            Output::Results(stdout) => stdout.flush(),
            Output::Status(stderr) => stderr.flush(),
            Output::Appended(file) => file.flush(),
            Output::Unopened => Err(io::Error::from(ErrorKind::NotFound)),
            Output::Nowhere => Ok(()),
        }
    }
}
