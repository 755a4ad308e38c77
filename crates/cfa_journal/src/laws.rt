// Laws of journals.
ghost use Rattle.cfa_journal.specs.Journals.{OneJournal, NeverBoth, OneBadRecord};

/// Bytes are a journal in one way, and a journal has no bad record; what is none has one first bad record. So what is
/// written, one record in its place after the other, reads back.
pub fn one_journal()
    ensures one { OneJournal }
    ensures never_both { NeverBoth }
    ensures one_bad { OneBadRecord }
{}
