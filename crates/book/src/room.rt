// Memory for a book, got before the floor is made: nothing else in this crate gets memory.
ghost use Rattle.std.specs.Prelude.{◌≡◌, ◌≤◌, [], replicate, IfOk, vec_capacity};
ghost use Rattle.book.specs.Stations.{blank};

use crate::book::Book;
use crate::kinds::Row;
use crate::stations::Stations;
use std::alloc::{AllocError, Global};

// Room for the 1,000 rows of a book.
#[derive(Drop)]
pub struct BookRoom {
    rows: Vec<Row>,
    ghost reserved: { 1000 ≤ vec_capacity rows },
    ghost empty: { rows.items ≡ [] },
}

impl BookRoom {
    // Reserves the memory, or says that it is lacking.
    pub fn new(heap: Global) -> Result<BookRoom, AllocError>
        ensures { IfOk result (λ b. b.rows.items ≡ []) }
    {
        let rows = Vec::with_capacity(heap, 1000)?;
        Ok(BookRoom { rows })
    }

    // The book of a new floor.
    pub(crate) fn open(self) -> Book
        ensures rows { result.rows.items ≡ [] }
        ensures stations { result.stations.list ≡ replicate 32 blank }
    {
        let BookRoom { rows } = self;
        Book {
            rows,
            stations: Stations::new(),
            pending: 0,
        }
    }
}
