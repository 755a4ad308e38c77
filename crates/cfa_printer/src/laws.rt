// Laws over the definition of the canonical text.
ghost use Rattle.cfa_printer.specs.Laws.{PrintedReadsBack, TestTellsEqual};

/// The canonical text of a policy that was read from tokens is the text of tokens that read as the same policy, places
/// aside, with no more levels open at once.
pub fn reading_back()
    ensures { PrintedReadsBack }
{}

/// The test by which a guard's line is left out tells whether the two guards are the same.
pub fn guard_test()
    ensures { TestTellsEqual }
{}
