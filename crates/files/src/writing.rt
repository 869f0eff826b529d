// A new file.
use std::fs::{OpenFile, OpenOptions};
use std::io;
use std::io::Write;
use std::rt::Files;

// Makes a file of this name that has these bytes. It fails where the name is taken, and the file that has it stays as it is, and where the new file is
// not there whole: what closing it would not tell, as that a disk has filled up, is asked for.
pub fn write_new(rt: &impl Files, path: &str, bytes: &[u8]) -> io::Result<()> {
    let mut file = OpenOptions::new()
        .write(true)
        .create_new(true)
        .open(rt, path)?;
    file.write_all(bytes)?;
    file.sync_all()
}
