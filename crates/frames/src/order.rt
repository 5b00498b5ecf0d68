//! The order values of a partition, lent as a column, or how many rows there are without them.

ghost use Rattle.std.specs.Prelude.{◌≡◌, length};
ghost use Rattle.frames.specs.Columns.{column};
ghost use Rattle.bounds.specs.Orders.{at as value_at, last as last_value};

// Not a `Result`, since a partition without order values lacks nothing; and not a struct that clauses see
// as its rows, since it would keep a length beside the values.
pub enum OrderColumn<'a, O> {
    Values(&'a [O]),
    /// This many rows, and no order.
    Absent(usize),
}

impl<O: Copy> OrderColumn<'_, O> {
    /// The number of rows.
    pub fn len(&self) -> usize
        ensures { result ≡ length (column self.now) }
    {
        match self {
            OrderColumn::Values(values) => values.len(),
            OrderColumn::Absent(rows) => *rows,
        }
    }

    /// The order value of a row.
    pub fn get(&self, row: usize) -> Option<O>
        ensures { result ≡ value_at (column self.now) row }
    {
        match self {
            OrderColumn::Values(values) => values.get(row).copied(),
            OrderColumn::Absent(_) => None,
        }
    }

    /// The order value of the last row.
    pub fn last(&self) -> Option<O>
        ensures { result ≡ last_value (column self.now) }
    {
        self.get(self.len().saturating_sub(1))
    }
}
