ghost use Rattle.std.specs.Prelude.{◌+◌, ◌≤◌, ◌==◌, ℕ, List as Sequence, filter, length};
ghost use Rattle.std.specs.List.{flat_map};
ghost use Rattle.std.specs.List.Sorted.{IsPermutation};
ghost use Rattle.nemo_transform.specs.Gives.{Row};
ghost use Rattle.nemo_ir.specs.Along.{below};
ghost use Rattle.nemo_ir.specs.Flat.{FlatForm, IsFlat};
ghost use Rattle.nemo_ir.specs.Part.{dealt, task_of};
ghost use Rattle.nemo_ir.specs.Rewrites.{Computes, IsLocal};
ghost use Rattle.nemo_ir.specs.Valid.{Valid};
ghost use Rattle.nemo_ir.specs.declared.dag.IrDag.{IrDag};

/// Each row goes to exactly one task, by its key as well as by its number: what the tasks get, put together, is the
/// whole, up to order.
pub fn split_law()
    ensures hashed { (cuts : Sequence ℕ) (rows : Sequence Row) → IsPermutation (flat_map (λ i. filter (λ r. task_of cuts r == i) rows) (below (length cuts + 1))) rows }
    ensures dealt { (n first : ℕ) (rows : Sequence Row) → 1 ≤ n → IsPermutation (flat_map (λ i. dealt n i first rows) (below n)) rows }
{}

/// A valid DAG computes its flat job, however the keys are split among the tasks: rewrite soundness. And what a task of
/// it gives depends on the cuts of its vertex and of those above it alone: cut locality.
pub fn rewrite_law()
    ensures computes { (flat : FlatForm) (dag : IrDag) → IsFlat flat → Valid flat dag → Computes flat dag }
    ensures local { (flat : FlatForm) (dag : IrDag) → Valid flat dag → IsLocal flat dag }
{}
