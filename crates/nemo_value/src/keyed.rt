use crate::field::Field;
use crate::row::Row;
use std::cmp::Ordering;
use std::marker::Model;

/// A row with the number that its first field is, if it is one. Most rows are told apart by it, without a look at
/// their fields, which lie elsewhere in memory. Contracts see the row.
#[derive(Drop)]
pub(crate) struct Keyed<'a> {
    number: Option<i64>,
    row: Row<'a>,
}

impl<'a> Model for Keyed<'a> {
    ghost use Rattle.std.specs.Prelude.{List, ◌≡◌};
    ghost use Rattle.nemo_value.specs.Order.{number_of};
    ghost use Rattle.nemo_value.specs.declared.field.Field.{Field};

    ghost Value = { List Field };

    ghost view = { λ k. k.row };

    ghost invariant = { λ k. k.number ≡ number_of k.row };
}

impl<'a> Keyed<'a> {
    ghost use Rattle.std.specs.Prelude.{◌≡◌};

    pub(crate) fn new(row: Row<'a>) -> Keyed<'a>
        ensures { result ≡ row.entry }
    {
        let number = match row.key() {
            Field::Int(n) => Some(*n),
            Field::Text(_) => None,
        };
        Keyed { number, row }
    }

    pub(crate) fn into_row(self) -> Row<'a>
        ensures { result ≡ self.entry }
    {
        self.row
    }
}

impl<'a> PartialEq for Keyed<'a> {
    ghost use Rattle.std.specs.Cmp.{partial_equiv_from_equiv, eq_by_cmp_equiv};
    ghost use Rattle.std.specs.Cmp.Lexicographic.{lists_total};
    ghost use Rattle.std.specs.Ordering.{eq_by_cmp};
    ghost use Rattle.nemo_value.specs.FieldOrder.{field_total};
    ghost use Rattle.nemo_value.specs.Order.{record_cmp};

    ghost eq = { eq_by_cmp record_cmp };

    ghost laws = { partial_equiv_from_equiv (eq_by_cmp_equiv (lists_total field_total)) };

    fn eq(&self, other: &Keyed<'a>) -> bool {
        self.cmp(other).is_eq()
    }
}

impl<'a> Eq for Keyed<'a> {
    ghost use Rattle.std.specs.Cmp.{eq_by_cmp_equiv};
    ghost use Rattle.std.specs.Cmp.Lexicographic.{lists_total};
    ghost use Rattle.nemo_value.specs.FieldOrder.{field_total};

    ghost laws = { eq_by_cmp_equiv (lists_total field_total) };
}

impl<'a> PartialOrd for Keyed<'a> {
    ghost use Rattle.std.specs.Prelude.{Some};
    ghost use Rattle.std.specs.Cmp.{partial_order_from_total};
    ghost use Rattle.std.specs.Cmp.Lexicographic.{lists_total};
    ghost use Rattle.nemo_value.specs.FieldOrder.{field_total};
    ghost use Rattle.nemo_value.specs.Order.{record_cmp};

    ghost partial_cmp = { λ a b. Some (record_cmp a b) };

    ghost laws = { partial_order_from_total (lists_total field_total) };

    fn partial_cmp(&self, other: &Keyed<'a>) -> Option<Ordering> {
        Some(self.cmp(other))
    }
}

/// As the rows.
impl<'a> Ord for Keyed<'a> {
    ghost use Rattle.std.specs.Prelude.{refl};
    ghost use Rattle.std.specs.Cmp.Lexicographic.{lists_total};
    ghost use Rattle.nemo_value.specs.FieldOrder.{field_total};
    ghost use Rattle.nemo_value.specs.Order.{record_cmp};

    ghost cmp = { record_cmp };

    ghost total = { lists_total field_total };

    ghost matches_partial_cmp = { λ a b. refl };

    ghost matches_eq = { λ a b. refl };

    #[tactic(auto, using(crate::proofs::Numbers::by_number))]
    fn cmp(&self, other: &Keyed<'a>) -> Ordering {
        match (self.number, other.number) {
            (Some(x), Some(y)) if x != y => x.cmp(&y),
            _ => self.row.fields().cmp(other.row.fields()),
        }
    }
}
