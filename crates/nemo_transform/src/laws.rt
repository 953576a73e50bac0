ghost use Rattle.std.specs.Prelude.{◌≡◌, ◌<◌, ℕ, List, ◌∷◌, map, true, false};
ghost use Rattle.std.specs.List.{flat_map, list_all};
ghost use Rattle.std.specs.List.Sorted.{IsPermutation};
ghost use Rattle.nemo_value.specs.Counted.{below};
ghost use Rattle.nemo_transform.specs.Brought.{at};
ghost use Rattle.nemo_transform.specs.Gives.{Row, answers, rows_in, own_faults};
ghost use Rattle.nemo_transform.specs.Laws.{is_source, meets, chained, united, share, MeetByKey};
ghost use Rattle.nemo_transform.specs.Ports.{kinds_of, is_main};
ghost use Rattle.nemo_transform.specs.Tasks.{Numbered, IsParted, AllBrought, AllParted, at_task};
ghost use Rattle.nemo_transform.specs.declared.transform.Transform.{Transform};

/// The row law: where no rows have to meet by key, one list or more that are joined give the rows that each of them
/// gives, joined, and the own faults of all. The rows of a Side port are the same each time.
pub fn row_law()
    ensures rows { (t : Transform) (list : List Row) (lists : List (List Row)) (second : List Row) → meets t ≡ false → is_source t ≡ false →
        rows_in (answers t (chained (list ∷ lists)) second) ≡ flat_map (λ l. rows_in (answers t l second)) (list ∷ lists) }
    ensures faults { (t : Transform) (list : List Row) (lists : List (List Row)) (second : List Row) → meets t ≡ false → is_source t ≡ false →
        own_faults (answers t (chained (list ∷ lists)) second) ≡ united (map (λ l. own_faults (answers t l second)) (list ∷ lists)) }
{}

/// The key law: where rows have to meet by key, and rows of equal keys, on either port, go to one of n tasks, the tasks
/// give together what the whole lists give, up to order, and the own faults of all.
pub fn key_law()
    ensures rows { (t : Transform) (first_task second_task : Row → ℕ) (n : ℕ) (first second : List Row) → meets t ≡ true → MeetByKey t first_task second_task →
        ((r : Row) → first_task r < n) → ((r : Row) → second_task r < n) →
        IsPermutation (flat_map (λ i. rows_in (answers t (share first_task i first) (share second_task i second))) (below n)) (rows_in (answers t first second)) }
    ensures faults { (t : Transform) (first_task second_task : Row → ℕ) (n : ℕ) (first second : List Row) → meets t ≡ true → MeetByKey t first_task second_task →
        ((r : Row) → first_task r < n) → ((r : Row) → second_task r < n) →
        own_faults (answers t first second) ≡ united (map (λ i. own_faults (answers t (share first_task i first) (share second_task i second))) (below n)) }
{}

/// The order law: lists in another order give the same rows in some order, and the same own faults.
pub fn order_law()
    ensures rows { (t : Transform) (first other second another : List Row) → is_source t ≡ false → IsPermutation first other → IsPermutation second another →
        IsPermutation (rows_in (answers t first second)) (rows_in (answers t other another)) }
    ensures faults { (t : Transform) (first other second another : List Row) → is_source t ≡ false → IsPermutation first other → IsPermutation second another →
        own_faults (answers t first second) ≡ own_faults (answers t other another) }
{}

/// What follows for a vertex of n tasks: where its ports bring parts of the whole rows as their kinds want, and rows of
/// equal keys go to one task, the tasks stand for the vertex on the whole rows. A fault on a Keyed or Side port blocks
/// every task, as it blocks the whole. `tasks p` says to which task each row of port p goes, where that is Keyed.
pub fn task_law()
    ensures main { (name : ℕ → ℕ) (n x : ℕ) (t : Transform) (gots : List (ℕ → Numbered)) (wholes : List Numbered) → is_source t ≡ false → list_all is_main (kinds_of t) ≡ true →
        AllParted name n gots wholes → IsParted name n (λ i. at (name x) t (at_task gots i)) (at x t wholes) }
    ensures all { (name : ℕ → ℕ) (tasks : ℕ → Row → ℕ) (n x : ℕ) (t : Transform) (gots : List (ℕ → Numbered)) (wholes : List Numbered) → is_source t ≡ false → 0 < n →
        MeetByKey t (tasks 0) (tasks 1) → ((p : ℕ) (r : Row) → tasks p r < n) →
        AllBrought name tasks n (kinds_of t) gots wholes → IsParted name n (λ i. at (name x) t (at_task gots i)) (at x t wholes) }
{}
