// Laws of histories.
ghost use Rattle.cfa_history.specs.Laws.{NoMoreRecords, RowsAreOne};

/// A journal has no more records than bytes. So one that is short enough to be read has few enough for its history.
pub fn no_more_records()
    ensures { NoMoreRecords }
{}

/// What instances tell of promises are some rows alone.
pub fn rows_are_one()
    ensures { RowsAreOne }
{}
