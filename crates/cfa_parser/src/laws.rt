// Laws of reading.
ghost use Rattle.cfa_parser.specs.Laws.{OneTree, OneAnswer};

/// A text has at most one tree, and one answer of `parse` besides want of memory.
pub fn reading_is_unique()
    ensures tree { OneTree }
    ensures answer { OneAnswer }
{}
