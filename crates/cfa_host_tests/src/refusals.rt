// What is synced when, and what is there where the machine refuses something.

// What each call syncs, by the last names of the paths. A record that a repair was done or is begun
// waits, and so does the lock behind the former: a repair of a file takes three syncs, and four with
// a lock. Behind a repair that was cut short all folders of the tree are synced. Where nothing is
// changed nothing is.
pub const SYNCED: &str = "== looking
folder
write services.tab a running enabled 0|
write journal run 4 2|open 1 main:1@2 Z|
folder tree
write tree/a text
look /a => Ok(File(4))
read /a => text
perms /a => 600 root root
row a => Ok(Some(ServiceRow { running: true, enabled: true, restarts: 0 }))
moment => Ok(None)
tables => true
synced => nothing
== waiting
file /d/a one => Ok(())
synced => .|waiting|a|d|new|waiting|
lock 1 => Ok(())
synced => changes|waiting|changes|
append run 4 2| => Ok(())
synced => journal|waiting|journal|
append open 1 main:1@2 Z| => Ok(())
synced => nothing
append file 1 /d/a Z Z| => Ok(())
synced => journal|
file /d/a two => Ok(())
synced => tree|new|d|
append done 1 repaired 1| => Ok(())
append open 2 main:2@3 Z| => Ok(())
synced => nothing
append file 2 /d/a Z Z| => Ok(())
file /d/a three => Ok(())
synced => journal|new|d|
append done 2 repaired 1| => Ok(())
lock 7 => Ok(())
synced => nothing
append open 3 main:3@4 Z| => Ok(())
append file 3 /d/a Z Z| => Ok(())
file /d/a four => Ok(())
synced => changes|journal|new|d|
append done 3 repaired 1| => Ok(())
append open 4 main:4@5 Z| => Ok(())
dir /d/b => Ok(())
synced => journal|new|d|
append done 4 repaired 1| => Ok(())
append open 5 main:5@6 Z| => Ok(())
set /d/b 644 root root => Ok(())
synced => journal|changes|
append done 5 repaired 1| => Ok(())
append fail 6 main:6@7 Z F1| => Ok(())
synced => journal|
append done 7 repaired 1| => Ok(())
append open 8 main:8@9 Z| => Ok(())
append done 8 repaired 1| => Ok(())
synced => journal|
append open 9 main:9@10 Z| => Ok(())
tables => true
synced => journal|new|waiting|new|waiting|changes|
tables => true
synced => nothing
== cut_short
file /d/a one => Ok(())
append run 4 2|open 1 main:1@2 Z| => Ok(())
synced => .|cut_short|a|d|new|cut_short|journal|cut_short|journal|
agent
append run 5 2|open 1 main:1@2 Z|file 1 /d/a Z Z| => Ok(())
synced => .|cut_short|journal|tree|d|journal|
agent
append run 6 2| => Ok(())
synced => .|cut_short|journal|tree|d|journal|
agent
append run 7 2| => Ok(())
synced => .|cut_short|journal|journal|
";

// Where a sync fails, the change that needs it is refused. Where that leaves it open what stands on
// the disk, so is each later one of that agent, and the next agent goes on. A full disk and a file
// that may not be opened refuse what they stop, and nothing else.
pub const FAILING: &str = "== failing_records
append run 4 2| => Ok(())
append open 1 main:1@2 Z| => Ok(())
broken no_sync
dir /a => Err(Failed)
fault => failing_records/journal System(5)
look /a => Ok(Nothing)
append done 1 failed F11| => Err(Failed)
tables => false
mended no_sync
dir /a => Err(Failed)
fault => failing_records/tree/a Unsure
tables => false
has journal => run 4 2|open 1 main:1@2 Z|
agent
dir /a => Ok(())
append done 1 repaired 1| => Ok(())
tables => true
has journal => run 4 2|open 1 main:1@2 Z|done 1 repaired 1|
== failing_record
append run 4 2| => Ok(())
broken no_sync
append fail 1 main:1@2 Z F1| => Err(Failed)
mended no_sync
has journal => run 4 2|
== failing_file
file /d/a one => Ok(())
file /d/a two => Ok(())
broken no_sync
file /d/a three => Err(Failed)
fault => failing_file/new System(5)
mended no_sync
read /d/a => two
file /d/a three => Ok(())
== failing_folder
file /d/a text => Ok(())
file /d/b text => Ok(())
broken no_sync
remove /d/a => Err(Failed)
fault => failing_folder/tree/d/a System(5)
mended no_sync
file /d/c text => Err(Failed)
fault => failing_folder/tree/d/c Unsure
agent
look /d/a => Ok(Nothing)
file /d/c text => Ok(())
== failing_row
folder
write services.tab a stopped enabled 0|
service a running enabled 0 => Ok(())
broken no_sync
service a running enabled 1 => Err(Failed)
fault => failing_row/changes System(5)
row a => Ok(Some(ServiceRow { running: true, enabled: true, restarts: 0 }))
has changes => service a running enabled 0|
mended no_sync
agent
service a running enabled 1 => Ok(())
== full
append run 4 2| => Ok(())
broken no_room
append open 1 main:1@2 Z| => Err(Failed)
fault => full/journal System(28)
file /a text => Err(Failed)
fault => full/new System(28)
look /a => Ok(Nothing)
lock 5 => Err(Failed)
moment => Ok(None)
mended no_room
append open 1 main:1@2 Z| => Ok(())
file /a text => Ok(())
read /a => text
tables => true
has journal => run 4 2|open 1 main:1@2 Z|
== not_to_be_opened
file /a text => Ok(())
broken no_access
read /a => Failed
fault => not_to_be_opened/tree/a System(13)
file /a new => Err(Failed)
remove /a => Err(Failed)
look /a => Ok(File(4))
mended no_access
read /a => text
remove /a => Ok(())
== odd_device
file /a text => Ok(())
broken device
look /a => Err(Failed)
fault => odd_device/tree/a OfAnotherKind
read /a => Failed
file /a new => Err(Failed)
remove /a => Err(Failed)
mended device
read /a => text
";

// Zeros that a power cut left for bytes that never came to the disk: a line that has some is cut
// off, with what is behind it, where it is one of the last three of the journal, or the last one of
// the changed rows.
pub const ZERO_BYTES: &str = "== zeros
folder
write journal run 4 2|open 1 main:1@2 Z|do^^ 1 repaired 1|open 2 main:2@3 Z|file 2 /a - Z|
append run 5 2| => Ok(())
has journal => run 4 2|open 1 main:1@2 Z|run 5 2|
== zeros
folder
write journal run 4 2|open 1 main:1@2 Z|file 1 /a - Z|do^^^^^
append run 5 2| => Ok(())
has journal => run 4 2|open 1 main:1@2 Z|file 1 /a - Z|run 5 2|
== zeros
folder
write journal run 4 2|op^^ 1 main:1@2 Z|done 1 repaired 1|open 2 main:2@3 Z|fail 3|
append run 5 2| => Ok(())
has journal => run 4 2|op^^ 1 main:1@2 Z|done 1 repaired 1|open 2 main:2@3 Z|fail 3|run 5 2|
== zeros
folder
write changes lock Z 5|lock Z 6^|
moment => Ok(Some(5))
== zeros
folder
write changes lock Z 5^|lock Z 6|
moment => Err(Failed)
fault => zeros/changes BadRow(1)
";

// A file of as many bytes as a file may have is read, and one of a byte more isn't.
pub const LONG: &str = "== long
folder
folder tree
long tree/a 16777216
long tree/b 16777217
look /a => Ok(File(16777216))
length /a => 16777216
look /b => Ok(File(16777217))
length /b => Failed
fault => long/tree/b OfAnotherLength
";
