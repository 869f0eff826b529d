// Why a file is refused, and where.
ghost use Rattle.std.specs.Prelude.{◌≡◌};
ghost use Rattle.table_records.specs.Refusal.{number_of};

// Document 01's refusals, by their numbers.
#[derive(Clone, Copy, PartialEq, Eq)]
pub enum Fault {
    TableCut = 1,
    HeaderRange = 2,
    TableRange = 3,
    TableLong = 4,
    ConstantAboveBound = 5,
    ClockBreaksBound = 6,
    ListCut = 7,
    ListRange = 8,
    ListLong = 9,
    EdgeFromElsewhere = 10,
    GuardFails = 11,
    ValueNotAllowed = 12,
    EndNotFinal = 13,
    RowsNotAscending = 14,
    RowFinal = 15,
    InitialRowMissing = 16,
    NextRowMissing = 17,
    EdgeUnknown = 18,
    BufferShort = 19,
    NoRoom = 20,
    FinalEntered = 21,
}

// A fault beside the number of the record, or of the edge, that has it.
#[derive(Clone, Copy, PartialEq, Eq)]
pub struct Refusal {
    pub fault: Fault,
    pub place: u16,
}

impl Fault {
    // Document 01's number.
    pub fn number(self) -> u8
        ensures { result ≡ number_of self }
    {
        self as u8
    }

    // The refusal for this fault at a place.
    pub fn at(self, place: u16) -> Refusal
        ensures { result ≡ record { fault = self; place = place } }
    {
        Refusal { fault: self, place }
    }
}
