ghost use Rattle.std.specs.Prelude.{◌≡◌, true, is_some};
ghost use Rattle.nemo_base.specs.Places.{item_at, row_at};
ghost use Rattle.nemo_core.specs.Cell.{with_item};

use nemo_value::List;
use std::marker::Model;

/// Lists by two places, as the tasks of stages and the blocks of vertices.
#[derive(Drop)]
pub(crate) struct Grid<T> {
    pub(crate) rows: Vec<List<T>>,
}

impl<T> Model for Grid<T> {
    ghost use Rattle.std.specs.Prelude.{List as Sequence};
    ghost use Rattle.std.specs.Coded.{coded_list};

    ghost Value = { Sequence (Sequence T) };

    ghost coded = { coded_list (coded_list T.code) };

    ghost view = { λ g. g.rows.items };
}

impl<T> Grid<T> {
    pub(crate) fn from_rows(rows: Vec<List<T>>) -> Grid<T>
        ensures { result ≡ rows.items }
    {
        Grid { rows }
    }

    pub(crate) fn rows(&self) -> &[List<T>]
        ensures { result.now ≡ self.now }
    {
        self.rows.as_slice()
    }

    /// A row, empty where there is none.
    pub(crate) fn row(&self, row: usize) -> &[T]
        ensures { result.now ≡ row_at self.now row }
    {
        match self.rows.get(row) {
            Some(items) => items.as_slice(),
            None => &[],
        }
    }

    pub(crate) fn get(&self, row: usize, at: usize) -> Option<T>
    where
        T: Copy,
        ensures { result ≡ item_at self.now row at }
    {
        self.row(row).get(at).copied()
    }

    /// Puts an item in the place of another one.
    pub(crate) fn set(&mut self, row: usize, at: usize, item: T)
    where
        T: Drop,
        requires { is_some (item_at self.old row at) ≡ true }
        ensures { self.new ≡ with_item self.old row at item }
    {
        self.rows[row].set(at, item);
    }
}
