// An admitted table: its file, and what that is read by.
ghost use Rattle.std.specs.Prelude.{◌≡◌, true, length};
ghost use Rattle.regions.specs.Values.{bounds_of};
ghost use Rattle.table_files.specs.Admission.{admission, table_of};
ghost use Rattle.tables.specs.Values.{is_accepted};

use table_records::head::Head;

// The file is admitted, and the head has its table's clocks and counts.
#[derive(Clone, Copy)]
pub struct Table<'a> {
    pub file: &'a [u8],
    pub head: Head,
    ghost admitted: { is_accepted (admission file.now) ≡ true },
    ghost bounds: { bounds_of head.clocks ≡ (table_of file.now).bounds },
    ghost count: { head.clocks.count ≡ length (table_of file.now).bounds },
    ghost locations: { head.locations ≡ (table_of file.now).locations },
    ghost initial: { head.initial ≡ (table_of file.now).initial },
    ghost edges: { head.edges ≡ length (table_of file.now).edges },
}
