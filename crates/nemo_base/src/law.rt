ghost use Rattle.std.specs.Prelude.{◌≡◌, ◌-◌, ◌<◌, ◌≤◌, ℕ, List as Sequence, length, slice_index, None};
ghost use Rattle.nemo_base.specs.Cuts.{bad_cut, task_at};

/// Each bucket lies on exactly one task: of the tasks between whose cuts it is, from the one before the task up to, but
/// without, its own, there is no other than the one to which the cuts deal it.
pub fn bucket_law()
    ensures { (cuts : Sequence ℕ) (bucket task : ℕ) → bad_cut 0 0 cuts ≡ None → task ≤ length cuts
        → (0 < task → slice_index cuts (task - 1) ≤ bucket) → (task < length cuts → bucket < slice_index cuts task) → task ≡ task_at cuts bucket }
{}
