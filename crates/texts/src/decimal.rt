// Numbers in decimal, without leading zeros.
ghost use Rattle.std.specs.Prelude.{◌≡◌, ◌++◌, ◌≤◌, length, drop};
ghost use Rattle.calls.specs.Text.{ascii};
ghost use Rattle.calls.specs.Program.{decimal};

use crate::word::write_word;
use itoa::Buffer;

// Writes a number to the front of the lent bytes, and tells how many bytes it takes. Later bytes stay.
#[tactic(auto, using(crate::proofs::Laws::Digits::decimal_plain))]
pub fn write_decimal(out: &mut [u8], n: u16) -> usize
    requires { 5 ≤ length out.old }
    ensures few { result ≤ 5 }
    ensures length { result ≡ length (ascii (decimal n)) }
    ensures text { out.new ≡ ascii (decimal n) ++ drop result out.old }
{
    write_word(out, Buffer::new().format(n).as_bytes())
}
