// The first bytes of a file.
ghost use Rattle.std.specs.Prelude.{◌≡◌, IfOk, IfSome, length, take};
ghost use Rattle.std.specs.Counts.{IsPrefixLen};

use std::fs::File;
use std::io;
use std::io::Read;
use std::rt::Files;

// Fills the buffer from its front with what a reader gives, up to the end of either, and tells how many bytes that are. It fails where a read fails.
pub fn read_bytes<R: Read>(reader: &mut R, buffer: &mut [u8]) -> io::Result<usize>
    ensures few { IfOk result (λ n. IsPrefixLen n buffer.new) }
    ensures first { IfOk result (λ n. IfSome (R.remaining reader.old) (λ bytes. take n buffer.new ≡ take (length buffer.old) bytes)) }
{
    let mut done = 0;
    // by hand: no method of the library fills a buffer as far as a file goes, and tells how far, without a heap
    while done < buffer.len() {
        let more = reader.read(&mut buffer[done..])?;
        if more == 0 {
            return Ok(done);
        }
        done += more;
    }
    Ok(done)
}

// The first bytes of a file, as many as the buffer holds. A file of which a read fails before that, or before its end, counts as one that cannot be
// opened: none.
pub fn read_file<F: Files>(rt: &F, path: &str, buffer: &mut [u8]) -> usize
    ensures { IsPrefixLen result buffer.new }
{
    let Ok(mut file) = File::open(rt, path) else {
        return 0;
    };
    read_bytes(&mut file, buffer).unwrap_or(0)
}
