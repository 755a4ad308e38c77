// Laws over the definitions of lexing.
ghost use Rattle.cfa_lexer.specs.Laws.{TokensAreOne, FaultIsOne, NeverBoth, AlwaysOne};

/// Bytes have one list of tokens or one first fault, and never both: with this the clauses of `lex` say exactly when each
/// of its answers comes.
pub fn one_lexing()
    ensures tokens { TokensAreOne }
    ensures fault { FaultIsOne }
    ensures never_both { NeverBoth }
    ensures always_one { AlwaysOne }
{}
