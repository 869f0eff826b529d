// The record reader: a record is a part of the lent file, uncopied.
ghost use Rattle.std.specs.Prelude.{◌≡◌, ◌+◌, ◌<◌, length, leb};
ghost use Rattle.table_files.specs.Bytes.{two, four};
ghost use Rattle.table_files.specs.Records.{part_at, record_at};

// Whether the n bytes from at on are in the file.
pub fn is_there(file: &[u8], at: usize, n: usize) -> bool
    ensures { result ≡ leb (at + n) (length file.now) }
{
    at <= file.len() && n <= file.len() - at
}

// The n bytes from at on, or no byte where the file ends before.
pub fn part(file: &[u8], at: usize, n: usize) -> &[u8]
    ensures { result.now ≡ part_at file.now at n }
{
    if is_there(file, at, n) {
        &file[at..at + n]
    } else {
        &file[..0]
    }
}

// The record of n bytes from at on, or no byte where the file ends inside it or its mark is another.
pub fn record(file: &[u8], at: usize, n: usize, mark: [u8; 2]) -> &[u8]
    ensures { result.now ≡ record_at file.now at n mark }
{
    let bytes = part(file, at, n);
    if bytes.starts_with(&mark) {
        bytes
    } else {
        &file[..0]
    }
}

// The number in two bytes, the high byte first.
pub fn two_bytes(bytes: &[u8], at: usize) -> u16
    requires { at + 1 < length bytes.now }
    ensures { result ≡ two bytes.now at }
{
    u16::from_be_bytes([bytes[at], bytes[at + 1]])
}

// The number in four bytes, the high byte first.
pub fn four_bytes(bytes: &[u8], at: usize) -> u32
    requires { at + 3 < length bytes.now }
    ensures { result ≡ four bytes.now at }
{
    u32::from_be_bytes([bytes[at], bytes[at + 1], bytes[at + 2], bytes[at + 3]])
}
