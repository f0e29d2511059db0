// The calls of a book.
ghost use Rattle.std.specs.Prelude.{◌≡◌, [], length, nat_le, slice_set};
ghost use Rattle.std.specs.List.{slice_get};
ghost use Rattle.book.specs.Book.{kept, places, filled, add_answer, kept_after, filled_after};

use super::Book;
use fault::{Cause, Fault};

impl<'a, T: Copy> Book<'a, T> {
    // A book with no record, over any row.
    pub fn new(row: &'a mut [T]) -> Book<'a, T>
        ensures kept { kept result ≡ [] }
        ensures count { filled result ≡ 0 }
        ensures places { places result ≡ row.old }
        ensures lender { result.row.ghost_name ≡ row.entry.ghost_name }
    {
        Book { row, count: 0 }
    }

    pub fn count(&self) -> usize
        ensures { result ≡ length (kept self.now) }
    {
        self.records().len()
    }

    // How many records the row has place for.
    pub fn capacity(&self) -> usize
        ensures { result ≡ length (places self.now) }
    {
        self.row.len()
    }

    // The records kept, in the order in which they came.
    pub fn records(&self) -> &[T]
        ensures { result.now ≡ kept self.now }
    {
        &self.row[..self.count]
    }

    // The record at place `i`, from 0; none from the count on.
    pub fn entry(&self, i: usize) -> Option<T>
        ensures { result ≡ slice_get (kept self.now) i }
    {
        self.records().get(i).copied()
    }

    fn is_full(&self) -> bool
        ensures { result ≡ nat_le (length (places self.now)) (filled self.now) }
    {
        self.count >= self.capacity()
    }

    // Puts the record after those already there; refused exactly when the row is full.
    pub fn add(&mut self, record: T) -> Result<(), Fault>
        ensures answer { result ≡ add_answer self.old }
        ensures kept { kept self.new ≡ kept_after self.old «record» }
        ensures count { filled self.new ≡ filled_after self.old }
        ensures places { places self.new ≡ slice_set (places self.old) (filled self.old) «record» }
        ensures lender { self.new.row.ghost_name ≡ self.old.row.ghost_name }
    {
        if self.is_full() {
            return Err(Fault::in_book(Cause::NoPlace, self.capacity()));
        }
        self.row[self.count] = record;
        self.count += 1;
        Ok(())
    }
}
