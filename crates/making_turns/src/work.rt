// What stands between two turns of the making of a list.
ghost use Rattle.std.specs.Prelude.{◌≡◌, ◌+◌, ◌*◌, ◌<◌};
ghost use Rattle.making_turns.specs.Work.{starting, went, next_row, to_walks, to_rows, adding, refusing, ending};

use next_steps::stride::Stride;
use regions::region::Region;
use table_records::head::Head;
use table_records::refusal::Refusal;
use tables::answer::Answer;

// The next turn stores `row` at `place` of the waiting list and takes the row at `take`. `count` rows are kept; the first `top` of them, in the order in
// which they were found, have been followed by plain steps, the first `start` by all; `walking` tells which of the two is being done. It goes on from the
// `last` stride: with its step, where 0 is waiting, and above it the edges, of which this one's record begins at `here`; a walk goes on from the row that was
// walked `from`, past the new row that was found there. `ended` is the answer, once there is one. The steps hand `head` on and never look into it, so they
// ask nothing of what stands there: a table's head, where nothing else is said.
#[derive(Clone, Copy)]
pub struct Work<H = Head> {
    pub ended: Option<Answer>,
    pub place: usize,
    pub row: Region,
    pub take: usize,
    pub head: H,
    pub count: usize,
    pub start: usize,
    pub top: usize,
    pub walking: bool,
    pub last: Stride,
}

// Work that begins with the initial row.
pub fn starting<H>(head: H, first: Region) -> Work<H>
    ensures { result ≡ starting head first }
{
    Work {
        ended: None,
        place: 0,
        row: first,
        take: 0,
        head,
        count: 1,
        start: 0,
        top: 0,
        walking: false,
        last: Stride {
            next: None,
            step: 0,
            here: 0,
            entered: false,
            from: None,
        },
    }
}

impl<H: Copy> Work<H> {
    // A look for a new row has come so far.
    pub fn went(self, q: Stride) -> Work<H>
        ensures { result ≡ went self q }
    {
        Work { last: q, ..self }
    }

    // The next row is followed.
    pub fn next_row(self) -> Work<H>
        requires { self.top < 4096 }
        ensures { result ≡ next_row self }
    {
        Work {
            take: self.top + 1,
            top: self.top + 1,
            last: Stride {
                step: 0,
                ..self.last
            },
            ..self
        }
    }

    // The rows that were followed are walked, from the edge on whose record begins here.
    pub fn to_walks(self, here: usize) -> Work<H>
        requires { self.top < 4096 }
        ensures { result ≡ to_walks self here }
    {
        Work {
            top: self.top + 1,
            walking: true,
            last: Stride {
                step: 1,
                here,
                ..self.last
            },
            ..self
        }
    }

    // The rows that were found since are followed.
    pub fn to_rows(self) -> Work<H>
        ensures { result ≡ to_rows self }
    {
        Work {
            take: self.top,
            start: self.top,
            walking: false,
            last: Stride {
                step: 0,
                ..self.last
            },
            ..self
        }
    }

    // A row is added, which the next turn stores.
    pub fn adding(self, row: Region) -> Work<H>
        requires { self.count < 4096 }
        ensures { result ≡ adding self row }
    {
        Work {
            place: self.count,
            row,
            count: self.count + 1,
            ..self
        }
    }

    // It ends with a list.
    pub fn ending(self) -> Work<H>
        ensures { result ≡ ending self }
    {
        Work {
            ended: Some(Ok((self.count % 65536) as u16)),
            ..self
        }
    }

    // It ends with a refusal.
    pub fn refusing(self, refusal: Refusal) -> Work<H>
        ensures { result ≡ refusing self refusal }
    {
        Work {
            ended: Some(Err(refusal)),
            ..self
        }
    }
}
