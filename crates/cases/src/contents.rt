// The lists that stand in the contents of a case, each taken to the front of a longer one.
ghost use Rattle.std.specs.Prelude.{◌≡◌, ◌≤◌, length};
ghost use Rattle.scratch.specs.Cleared.{cleared};
ghost use Rattle.scratch.specs.Over.{over};
ghost use Rattle.cases.specs.Contents.{linear_in, rows_in, columns_in, weights_in, start_in, untouched, list_before};

use crate::case::Case;
use lines::left::{FLOAT, SHORT, WORD};
use stream::lists::take;

impl<'a> Case<'a> {
    // The linear weights, which stand first.
    pub fn take_linear(self, c: &mut [f64])
        requires { self.head.linear ≤ length c.old }
        ensures { c.new ≡ over (linear_in self.entry.head self.entry.contents.now) c.old }
    {
        let count = self.head.linear;
        take(self.contents, 0, &mut c[..count]);
    }

    // The rows, behind the linear weights.
    pub fn take_rows(self, rows: &mut [u16])
        requires { self.head.rows ≤ length rows.old }
        ensures { rows.new ≡ over (rows_in self.entry.head self.entry.contents.now) rows.old }
    {
        let count = self.head.rows;
        let at = 8 * self.head.linear;
        take(self.contents, at, &mut rows[..count]);
    }

    // The columns, behind the rows.
    pub fn take_columns(self, cols: &mut [u16])
        requires { self.head.columns ≤ length cols.old }
        ensures { cols.new ≡ over (columns_in self.entry.head self.entry.contents.now) cols.old }
    {
        let count = self.head.columns;
        let at = 8 * self.head.linear + 2 * self.head.rows;
        take(self.contents, at, &mut cols[..count]);
    }

    // The entries' weights, behind the columns.
    pub fn take_weights(self, q: &mut [f64])
        requires { self.head.weights ≤ length q.old }
        ensures { q.new ≡ over (weights_in self.entry.head self.entry.contents.now) q.old }
    {
        let count = self.head.weights;
        let at = 8 * self.head.linear + 2 * self.head.rows + 2 * self.head.columns;
        take(self.contents, at, &mut q[..count]);
    }

    // The start values go to the front of a list.
    pub fn take_start(self, start: &mut [u8])
        requires { self.head.start ≤ length start.old }
        ensures { start.new ≡ over (start_in self.entry.head self.entry.contents.now) start.old }
    {
        let count = self.head.start;
        let at = self.head.start_at();
        take(self.contents, at, &mut start[..count]);
    }

    // The list holds the given constraints, or what cannot be part of an answer.
    fn take_constraints(self, list: &mut [u16])
        ensures { list.new ≡ list_before self.entry.head self.entry.contents.now list.old }
    {
        if list.len() == self.head.constraints {
            take(self.contents, self.head.constraints_at(), list);
        } else {
            list.fill(SHORT);
        }
    }

    // What an answer list and scratch hold before a call.
    pub fn fill_lent(self, list: &mut [u16], f: &mut [f64], u: &mut [u32])
        ensures list_value { list.new ≡ list_before self.entry.head self.entry.contents.now list.old }
        ensures f_value { f.new ≡ cleared untouched f.old }
        ensures u_value { u.new ≡ cleared 165 u.old }
    {
        self.take_constraints(list);
        f.fill(FLOAT);
        u.fill(WORD);
    }
}
