use crate::memory::NoMemory;
use crate::same::Same;
use crate::text::Text;
use crate::try_copy::TryCopy;
use std::alloc::Global;
use std::cmp::Ordering;
use std::hash::Hash;

/// A whole number or a text. Numbers stand before texts, numbers by value, texts by bytes.
#[derive(Hash, Drop)]
pub enum Field {
    Int(i64),
    Text(Text),
}

impl TryCopy for Field {
    fn copy(&self, alloc: Global) -> Result<Field, NoMemory> {
        match self {
            Field::Int(n) => Ok(Field::Int(*n)),
            Field::Text(text) => Ok(Field::Text(text.copy(alloc)?)),
        }
    }
}

impl Same for Field {
    fn same(&self, other: &Field) -> bool {
        match (self, other) {
            (Field::Int(x), Field::Int(y)) => x == y,
            (Field::Text(s), Field::Text(t)) => s.same(t),
            _ => false,
        }
    }
}

impl PartialEq for Field {
    ghost use Rattle.std.specs.Cmp.{partial_equiv_from_equiv, eq_by_cmp_equiv};
    ghost use Rattle.std.specs.Ordering.{eq_by_cmp};
    ghost use Rattle.nemo_value.specs.Order.{field_cmp};
    ghost use Rattle.nemo_value.specs.FieldOrder.{field_total};

    ghost eq = { eq_by_cmp field_cmp };

    ghost laws = { partial_equiv_from_equiv (eq_by_cmp_equiv field_total) };

    #[tactic(auto, using(crate::proofs::SameText::same_text))]
    fn eq(&self, other: &Field) -> bool {
        match (self, other) {
            (Field::Int(x), Field::Int(y)) => x == y,
            (Field::Text(s), Field::Text(t)) => s == t,
            _ => false,
        }
    }
}

impl Eq for Field {
    ghost use Rattle.std.specs.Cmp.{eq_by_cmp_equiv};
    ghost use Rattle.nemo_value.specs.FieldOrder.{field_total};

    ghost laws = { eq_by_cmp_equiv field_total };
}

impl PartialOrd for Field {
    ghost use Rattle.std.specs.Prelude.{Some};
    ghost use Rattle.std.specs.Cmp.{partial_order_from_total};
    ghost use Rattle.nemo_value.specs.Order.{field_cmp};
    ghost use Rattle.nemo_value.specs.FieldOrder.{field_total};

    ghost partial_cmp = { λ a b. Some (field_cmp a b) };

    ghost laws = { partial_order_from_total field_total };

    fn partial_cmp(&self, other: &Field) -> Option<Ordering> {
        Some(self.cmp(other))
    }
}

impl Ord for Field {
    ghost use Rattle.std.specs.Prelude.{refl};
    ghost use Rattle.nemo_value.specs.Order.{field_cmp};
    ghost use Rattle.nemo_value.specs.FieldOrder.{field_total};

    ghost cmp = { field_cmp };

    ghost total = { field_total };

    ghost matches_partial_cmp = { λ a b. refl };

    ghost matches_eq = { λ a b. refl };

    fn cmp(&self, other: &Field) -> Ordering {
        match (self, other) {
            (Field::Int(x), Field::Int(y)) => x.cmp(y),
            (Field::Int(_), Field::Text(_)) => Ordering::Less,
            (Field::Text(_), Field::Int(_)) => Ordering::Greater,
            (Field::Text(s), Field::Text(t)) => s.cmp(t),
        }
    }
}

#[derived]
impl Hash for Field {
    ghost use Rattle.nemo_value.specs.FieldOrder.{made_alike};

    ghost respects_eq = { made_alike _ };
}
