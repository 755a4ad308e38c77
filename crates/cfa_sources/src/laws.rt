// Laws over what is read of texts.
ghost use Rattle.cfa_sources.specs.Laws.{SourceTreeIsOne, SourceLineIsOne, SourceNeverBoth, FileTreeIsOne, FileLineIsOne, FileNeverBoth, PolicyTreeIsOne, PolicyLineIsOne, PolicyNeverBoth};

use cfa_lexer::one_lexing;
use cfa_parser::reading_is_unique;
use cfa_schema::one_refusal;

/// A source is read to one tree, or refused with one line, and never both.
pub fn a_source_has_one_answer()
    ensures tree { SourceTreeIsOne }
    ensures line { SourceLineIsOne }
    ensures never_both { SourceNeverBoth }
{
    one_lexing();
    reading_is_unique();
}

/// The file of a name is read to one tree, or refused with one line, and never both.
pub fn a_file_has_one_answer()
    ensures tree { FileTreeIsOne }
    ensures line { FileLineIsOne }
    ensures never_both { FileNeverBoth }
{
    a_source_has_one_answer();
}

/// A policy is valid with one tree of all its files, or refused with one line, and never both.
pub fn a_policy_has_one_answer()
    ensures tree { PolicyTreeIsOne }
    ensures line { PolicyLineIsOne }
    ensures never_both { PolicyNeverBoth }
{
    a_file_has_one_answer();
    one_refusal();
}
