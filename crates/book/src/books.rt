// A book: records in the order in which they came, in a row that the caller lends.
ghost use Rattle.std.specs.Prelude.{◌≤◌, length};

// The calls stand apart, since their contracts cite definitions over this struct.
mod calls;

// The first `count` places of the row hold records; what lies beyond them is not the book's.
// Fields and no model, as a model's value cannot hold the name of the lent row, by which its caller follows it.
#[derive(Drop)]
pub struct Book<'a, T> {
    row: &'a mut [T],
    count: usize,
    ghost within: { count ≤ length row.now },
}
