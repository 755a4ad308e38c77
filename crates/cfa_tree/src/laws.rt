// Laws of class texts.
ghost use Rattle.cfa_tree.specs.Laws.{ExpressionsAreComputed, ComputedAreExpressions};

/// A text is at most one class expression, which `expression_of` computes. So the clauses of `read_expr` say which answer
/// comes for which text.
pub fn expressions_are_read()
    ensures computed { ExpressionsAreComputed }
    ensures read { ComputedAreExpressions }
{}
