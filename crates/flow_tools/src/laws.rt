//! The laws of what a job puts. Each is the contract of a function that computes nothing.
ghost use Rattle.flow_tools.specs.laws.CutTexts.{GreatestIsLeast, PrintedCutIsMinimum};
ghost use Rattle.flow_tools.specs.laws.SolvedTexts.{SolvedIsOptimal};

/// What `solve` puts for an accepted problem text is accepted as a solution of the problem, and the one verdict on it
/// is that it is optimal, with the greatest value.
pub fn solved_is_optimal()
    ensures { SolvedIsOptimal }
{}

/// The greatest value of a feasible flow, which `solve` and `cut` put for an accepted problem text, is the least
/// capacity of a cut.
pub fn greatest_is_least()
    ensures { GreatestIsLeast }
{}

/// What `cut` puts for an accepted problem text tells a minimum cut, whose capacity is the value.
pub fn printed_cut_is_minimum()
    ensures { PrintedCutIsMinimum }
{}
