//! Rows with their actions, in two lists side by side.
ghost use Rattle.std.specs.Prelude.{◌≡◌, ◌<◌, ◌≤◌, length, take, drop, slice_set, true, false, OnOk, IfErr};
ghost use Rattle.std.specs.Str.{bytes_eq};
ghost use Rattle.rows.specs.declared.row.PieceFault.TheVariants.{Mismatch};

use crate::putting::close_base;
use crate::row::{PieceFault, Row, RowKind};

/// Rows, and at each row's place in the list beside its action's plain form. Both lists are the caller's.
#[derive(Drop)]
pub struct Lists<'a, P: Copy> {
    pub rows: &'a mut [Row],
    pub actions: &'a mut [P],
    ghost beside: { length rows.now ≡ length actions.now },
}

/// The same lists, only to be read.
#[derive(Drop)]
pub struct Entries<'a, P: Copy> {
    pub rows: &'a [Row],
    pub actions: &'a [P],
    ghost beside: { length rows.now ≡ length actions.now },
}

impl<'a, P: Copy> Lists<'a, P> {
    ghost use Rattle.rows.specs.Pieces.{Inside, name, done, closes};
    ghost use Rattle.rows.specs.Places.{paired, at};
    ghost use Rattle.rows.specs.Same.{SameLists};

    /// Writes a row with its action's plain form at place `i`.
    pub fn write(&mut self, i: usize, row: Row, action: P)
        requires { i < length self.old.rows.now }
        ensures rows { self.new.rows.now ≡ slice_set self.old.rows.now i row }
        ensures actions { self.new.actions.now ≡ slice_set self.old.actions.now i action }
        ensures same { SameLists self.old self.new }
    {
        self.rows[i] = row;
        self.actions[i] = action;
    }

    /// Closes the base at `i` by the end tag `row`, which must have the same name.
    pub fn close_base(&mut self, file: &[u8], i: usize, row: Row) -> Result<(), PieceFault>
        requires here { i < length self.old.rows.now }
        requires open { Inside file.now (at self.old.rows.now i) }
        requires own { Inside file.now row }
        ensures closed { OnOk result ((bytes_eq (name file.now (at self.old.rows.now i)) (name file.now row) ≡ true) × (self.new.rows.now ≡ slice_set self.old.rows.now i (done (at self.old.rows.now i)))) }
        ensures mismatch { IfErr result (λ fault. (fault ≡ Mismatch row.place) × (bytes_eq (name file.now (at self.old.rows.now i)) (name file.now row) ≡ false) × (self.new.rows.now ≡ self.old.rows.now)) }
        ensures actions { self.new.actions.now ≡ self.old.actions.now }
        ensures same { SameLists self.old self.new }
    {
        if close_base(file, self.rows, i, row) {
            Ok(())
        } else {
            Err(row.mismatch())
        }
    }

    /// Keeps only the Close rows of the first `n`, in place, and says how many there are.
    pub fn keep_closes(&mut self, n: usize) -> usize
        requires { n ≤ length self.old.rows.now }
        ensures kept { take result (paired self.new.rows.now self.new.actions.now) ≡ closes (take n (paired self.old.rows.now self.old.actions.now)) }
        ensures within { result ≤ n }
        ensures rest { (drop n self.new.rows.now ≡ drop n self.old.rows.now) × (drop n self.new.actions.now ≡ drop n self.old.actions.now) }
        ensures same { SameLists self.old self.new }
    {
        // A kept row moves down within the lists that are read, so places are counted here.
        let mut k = 0;
        for i in 0..n {
            let row = self.rows[i];
            if row.kind == RowKind::Close {
                let action = self.actions[i];
                self.write(k, row, action);
                k += 1;
            }
        }
        k
    }
}
