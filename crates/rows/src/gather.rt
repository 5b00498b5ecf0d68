//! What is made of a batch, one value after the other, oldest first.

ghost use Rattle.std.specs.Prelude.{◌≡◌, ◌≤◌, length, fold};
ghost use Rattle.rows.specs.Rows.{kept, non_null};

use crate::arguments::Arguments;

// Not a closure: a function that calls one has to ask that it may be called, and none here asks anything.
/// A figure that takes one value more.
pub trait Gather<V> {
    ghost gathered: { Self → V → Self };

    fn gather(&mut self, value: V)
        ensures { self.new ≡ gathered self.old value };
}

/// Keeps nothing: only the rows are counted.
#[derive(Clone, Copy)]
pub struct Nothing;

impl<V: Copy> Gather<V> for Nothing {
    ghost gathered = { λ n _. n };

    fn gather(&mut self, _value: V) {}
}

/// How many rows a batch has, and how many of them are not missing.
#[derive(Clone, Copy)]
pub struct Tally {
    pub rows: usize,
    pub present: usize,
}

impl<'a, V: Copy> Arguments<'a, V> {
    /// Counts the rows of the batch, and hands its values on, oldest first.
    pub fn gather<G: Gather<V>>(&self, figure: &mut G) -> Tally
        ensures rows { result.rows ≡ length (kept self.now) }
        ensures present { result.present ≡ length (non_null (kept self.now)) }
        ensures fewer { result.present ≤ result.rows }
        ensures figure { figure.new ≡ fold G.Gather.gathered figure.old (non_null (kept self.now)) }
    {
        let mut rows = 0;
        let mut present = 0;
        // By number, not over `iter`: it passes rows over in a loop of its own, and the compiler then takes one row at a time.
        for i in 0..self.len() {
            if let Some(argument) = self.row(i) {
                rows += 1;
                if let Some(value) = argument {
                    present += 1;
                    figure.gather(value);
                }
            }
        }
        Tally { rows, present }
    }
}
