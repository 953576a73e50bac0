ghost use Rattle.nemo_base.specs.NeedLaw.{NeedLaw};

/// On a sound graph a task is needed exactly where one of its blocks is gone and wanted. Where more is gone, more is
/// needed and wanted, and nothing changes where nobody wants what is gone besides.
pub fn need_law()
    ensures { NeedLaw }
{}
