ghost use Rattle.lq_statehist.specs.Laws.{HaveOutputs, IsOwnHistory};
ghost use Rattle.lq_statehist.specs.Tiling.{IsOnlyHistory};

/// The pieces of which slices are made follow one another from the first second up to before the
/// last, none of no length; at each second of a piece the log tells the same, and no two neighbours
/// tell the same. No others are so. The call does nothing; its contract is this law over the
/// definition that `slices` meets.
pub fn only_history()
    ensures { IsOnlyHistory }
{}

/// Logs that agree in the lines about an object, about its host and about time periods show the
/// same history of it; the lines may stand at other places. The call does nothing; its contract is
/// this law over the definition that `slices` meets.
pub fn history_is_its_own()
    ensures { IsOwnHistory }
{}

/// The line that a slice carries has the output that is told in the slice; where it carries none
/// the output is empty. The call does nothing; its contract is this law over the definition that
/// `slices` meets.
pub fn slices_have_outputs()
    ensures { HaveOutputs }
{}
