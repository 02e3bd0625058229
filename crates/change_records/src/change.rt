use osq_value::{Str, Value};

/// A change of a file: its path, what was done, its numbers (inode, uid, gid, size and mtime, in this order), its mode and its time.
#[derive(Drop)]
pub struct Change {
    /// The path of the file. It begins with `/`.
    pub path: Str,
    /// What was done with the file, in 1 to 64 bytes.
    pub action: Str,
    /// inode, uid, gid, size and mtime, each a whole number or Null.
    pub numbers: [Value; 5],
    /// The text of the key `mode`, or Null.
    pub mode: Value,
    /// A whole number or Null, as the line has it; osquery's is in seconds since 1970 UTC.
    pub time: Value,
}
