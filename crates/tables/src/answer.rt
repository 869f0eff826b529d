// What a call answers: accepted with a count, or refused for a fault at a place.
ghost use Rattle.std.specs.Prelude.{◌≡◌};
ghost use Rattle.table_files.specs.Answer.{packed};
ghost use Rattle.tables.specs.Values.{answer_of};

use table_records::refusal::Refusal;

pub type Answer = Result<u16, Refusal>;

// The answer as one number: the count, or the refusal's number times 65,536 plus its place.
pub fn packed(a: Answer) -> u32
    ensures { result ≡ packed (answer_of a) }
{
    match a {
        Ok(count) => count as u32,
        Err(refusal) => (refusal.fault.number() as u32) * 65536 + (refusal.place as u32),
    }
}
