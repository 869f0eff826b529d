// A test aid, not part of the product: following, as a function for a host program in Rust or C.
#![tactic(auto)]

ghost use Rattle.std.specs.Prelude.{◌≡◌};
ghost use Rattle.calls.specs.Follow.{follow_answer, follow_buffer};
ghost use Rattle.probe.specs.Number.{number_of};

use following::follow::follow;

// The count of rows written; or 2^63 plus the refusal's number times 65,536 plus its place.
#[unsafe(no_mangle)]
pub extern "C" fn tzelmaruf_follow(table: &[u8], row: &[u8], number: u16, buffer: &mut [u8]) -> u64
    ensures answer { result ≡ number_of (follow_answer table.now row.now number buffer.old) }
    ensures buffer { buffer.new ≡ follow_buffer table.now row.now number buffer.old }
{
    match follow(table, row, number, buffer) {
        Ok(count) => count as u64,
        Err(refusal) => 9223372036854775808
            + (refusal.fault.number() as u64) * 65536
            + (refusal.place as u64),
    }
}
