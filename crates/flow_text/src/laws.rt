//! The laws of the texts. Each function computes nothing: its contract is the law.
ghost use Rattle.flow_text.specs.TextLaws.{LinesAreCut, LinesAreCutOneWay, EarlyFaultStays, EarlySolutionFaultStays};
ghost use Rattle.flow_text.specs.TextLaws.{AcceptedProblemIsWithin, AcceptedSolutionIsWithin};

/// Each text is cut into lines and a rest that hold no byte 10.
pub fn lines_are_cut()
    ensures { LinesAreCut }
{}

/// A text is cut into lines in one way only.
pub fn lines_are_cut_one_way()
    ensures { LinesAreCutOneWay }
{}

/// An early fault of a problem's text is the fault of every text that goes on from it.
pub fn early_fault_stays()
    ensures { EarlyFaultStays }
{}

/// An early fault of a solution's text is the fault of every text that goes on from it.
pub fn early_solution_fault_stays()
    ensures { EarlySolutionFaultStays }
{}

/// A problem's text without a fault says a network within the limits, with proper terminals.
pub fn accepted_problem_is_within()
    ensures { AcceptedProblemIsWithin }
{}

/// A solution's text without a fault says a value and flow lines within the limits.
pub fn accepted_solution_is_within()
    ensures { AcceptedSolutionIsWithin }
{}
