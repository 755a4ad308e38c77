// Laws of tables.
ghost use Rattle.cfa_tables.specs.Laws.{TellsTables, WritesTables, ReadAgain};
ghost use Rattle.cfa_tables.specs.Tables.{service_text, perms_text, lock_text, IsServiceRow, IsPermsRow, IsLockRow};

/// Bytes are at most one table, and one that is a table has no bad row. So what is written of rows whose keys rise reads
/// back to these rows. Bytes that are none have one first bad row.
pub fn tables_tell_rows()
    ensures services { TellsTables service_text IsServiceRow }
    ensures perms { TellsTables perms_text IsPermsRow }
    ensures locks { TellsTables lock_text IsLockRow }
{}

/// The text of rows that are kept by their keys is a table, which reads back to these rows and to no others.
pub fn kept_rows_are_tables()
    ensures services { WritesTables service_text IsServiceRow }
    ensures perms { WritesTables perms_text IsPermsRow }
    ensures locks { WritesTables lock_text IsLockRow }
{}

/// Changed rows that are read over tables of which some have them already give the rows that they gave before, where the journal
/// has as many bytes as before. Such tables are what an agent leaves that is stopped between two of them, or before it takes the
/// lines of the changed rows away.
pub fn changes_are_read_again()
    ensures { ReadAgain }
{}
