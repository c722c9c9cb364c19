// What the results of a plan are, and why nodes were skipped.
ghost use Rattle.model_laws.specs.Results.{
  ResultsUnfold,
  SolutionsAreResults,
  ResultsStand,
  OutcomesDecide,
  RightOutcomesTell,
  ResultsFit,
  CausesUnfold,
  CausesAreToBlame,
};

/// The results solve their own recursion at every node: its bound is never met.
pub fn results_unfold()
    ensures { ResultsUnfold }
{}

/// Whatever solves the recursion at every node is the results.
pub fn solutions_are_results()
    ensures { SolutionsAreResults }
{}

/// The results have at each node its status.
pub fn results_stand()
    ensures { ResultsStand }
{}

/// Outcomes that agree at each node that was built give the same results.
pub fn outcomes_decide()
    ensures { OutcomesDecide }
{}

/// Outcomes that are right at each node that was built give the results.
pub fn right_outcomes_tell()
    ensures { RightOutcomesTell }
{}

/// The results of a plan fit it, whatever the builds give.
pub fn results_fit()
    ensures { ResultsFit }
{}

/// The cause of a skipped node is its least dependency without a package, or that one's cause
/// where it was skipped too.
pub fn causes_unfold()
    ensures { CausesUnfold }
{}

/// The cause of a skipped node is a node that failed or is ignored.
pub fn causes_are_to_blame()
    ensures { CausesAreToBlame }
{}
