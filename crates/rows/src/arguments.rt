//! Lent columns: arguments, their presence, and which rows a filter keeps.

ghost use Rattle.std.specs.Prelude.{◌≡◌, ℕ, suc, ◌-◌, ◌≤◌, ◌++◌, length, take, drop, IfOk};
ghost use Rattle.std.specs.Option.{option_to_list};
ghost use Rattle.rows.specs.Rows.{kept, mask_bytes, optional, rows};
ghost use Rattle.rows.specs.Lengths.{Measures};

use crate::misfit::Misfit;
use std::marker::Model;

// Three columns side by side, with bytes for yes and no, as the instrument lends them.
/// A part of the columns, seen as its rows. Nothing is copied: the rows stay where the caller has them.
#[derive(Drop)]
pub struct Arguments<'a, V> {
    values: &'a [V],
    presence: &'a [u8],
    mask: Option<&'a [u8]>,
}

impl<'a, V> Model for Arguments<'a, V> {
    ghost use Rattle.std.specs.Prelude.{List};
    ghost use Rattle.rows.specs.Rows.{Row};

    ghost Value = { List (Row V) };

    ghost use Rattle.rows.specs.Columns.{rows_of, Aligned};

    ghost view = { rows_of };

    ghost invariant = { Aligned };
}

/// The argument of a row with this presence byte.
fn argument<V: Copy>(value: V, presence: u8) -> Option<V>
    ensures { result ≡ optional value presence }
{
    (presence != 0).then_some(value)
}

/// The length of a mask, and of `rows` rows where there is none.
fn mask_len(mask: Option<&[u8]>, rows: usize) -> usize
    ensures { result ≡ length (mask_bytes mask.entry rows) }
{
    mask.map_or(rows, <[u8]>::len)
}

/// The part of a mask, if there is one.
fn mask_part<'a>(mask: Option<&'a [u8]>, start: usize, end: usize) -> Option<&'a [u8]>
    requires start_le_end { start ≤ end }
    requires end_in_bounds { end ≤ length (mask_bytes mask end) }
    ensures { (n : ℕ) → end ≤ n → mask_bytes result (end - start) ≡ take (end - start) (drop start (mask_bytes mask.entry n)) }
{
    Some(&mask?[start..end])
}

impl<'a, V: Copy> Arguments<'a, V> {
    /// Whether the columns have one length; else the first that departs from the arguments.
    pub fn check_lengths(values: &[V], presence: &[u8], mask: Option<&[u8]>) -> Result<(), Misfit>
        ensures { Measures (length values.now) (length presence.now) (length (mask_bytes mask.entry (length values.now))) result }
    {
        if presence.len() != values.len() {
            return Err(Misfit::Presence);
        }
        if mask_len(mask, values.len()) != values.len() {
            return Err(Misfit::Mask);
        }
        Ok(())
    }

    /// The rows that all columns have. In presence and mask 0 means no, any other byte yes; without a
    /// mask every row is kept.
    pub fn new(values: &'a [V], presence: &'a [u8], mask: Option<&'a [u8]>) -> Arguments<'a, V>
        ensures { result ≡ rows values.now presence.now (mask_bytes mask.entry (length values.now)) }
    {
        let len = values
            .len()
            .min(presence.len())
            .min(mask_len(mask, values.len()));
        Arguments {
            values: &values[..len],
            presence: &presence[..len],
            mask: mask_part(mask, 0, len),
        }
    }

    /// The rows of columns of one length; else the first that departs from the arguments.
    pub fn try_new(
        values: &'a [V],
        presence: &'a [u8],
        mask: Option<&'a [u8]>,
    ) -> Result<Arguments<'a, V>, Misfit>
        ensures lengths { Measures (length values.now) (length presence.now) (length (mask_bytes mask.entry (length values.now))) result }
        ensures rows { IfOk result (λ a. a ≡ rows values.now presence.now (mask_bytes mask.entry (length values.now))) }
    {
        Arguments::check_lengths(values, presence, mask)?;
        Ok(Arguments::new(values, presence, mask))
    }

    /// The rows from `start` on and before `end`, as many of them as there are.
    pub fn part(&self, start: usize, end: usize) -> Arguments<'a, V>
        ensures { result ≡ drop start (take end self.now) }
    {
        let end = end.min(self.values.len());
        let start = start.min(end);
        Arguments {
            values: &self.values[start..end],
            presence: &self.presence[start..end],
            mask: mask_part(self.mask, start, end),
        }
    }

    /// The number of rows, kept or not.
    pub fn len(&self) -> usize
        ensures { result ≡ length self.now }
    {
        self.values.len()
    }

    /// What row `i` puts into a batch: nothing where the filter leaves it out, or there is no such row.
    pub fn row(&self, i: usize) -> Option<Option<V>>
        ensures { kept (drop i self.now) ≡ option_to_list result ++ kept (drop (suc i) self.now) }
    {
        let value = *self.values.get(i)?;
        let argument = argument(value, self.presence[i]);
        match self.mask {
            None => Some(argument),
            Some(mask) => if mask[i] == 0 { None } else { Some(argument) },
        }
    }
}
