// What stands in a folder and no agent leaves there, and what is kept for the next agent.

// A table or a changed row that is none makes each call fail, and stays as it is.
pub const DAMAGED: &str = "== damaged
folder
write perms.tab /b 0644 root root|/a 0644 root root|
look /a => Err(Failed)
file /a text => Err(Failed)
dir /a => Err(Failed)
remove /a => Err(Failed)
has perms.tab => /b 0644 root root|/a 0644 root root|
== damaged
folder
write perms.tab /b 0644 root root
look /a => Err(Failed)
file /a text => Err(Failed)
dir /a => Err(Failed)
remove /a => Err(Failed)
has perms.tab => /b 0644 root root
== damaged
folder
write services.tab sshd on|
look /a => Err(Failed)
file /a text => Err(Failed)
dir /a => Err(Failed)
remove /a => Err(Failed)
has services.tab => sshd on|
== damaged
folder
write locks.tab 0 5|
look /a => Err(Failed)
file /a text => Err(Failed)
dir /a => Err(Failed)
remove /a => Err(Failed)
has locks.tab => 0 5|
== damaged
folder
write changes what 5|
look /a => Err(Failed)
file /a text => Err(Failed)
dir /a => Err(Failed)
remove /a => Err(Failed)
has changes => what 5|
== damaged
folder
write changes gone a|
look /a => Err(Failed)
file /a text => Err(Failed)
dir /a => Err(Failed)
remove /a => Err(Failed)
has changes => gone a|
";

// No link is followed, in any call, and what it names stays as it is.
pub const LINKS: &str = "== links
folder
write out out
file /a/b in => Ok(())
link tree/end ../out
link tree/mid a
link tree/loose nowhere
look /end => Err(Failed)
file /end text => Err(Failed)
dir /end => Err(Failed)
remove /end => Err(Failed)
look /mid => Err(Failed)
file /mid text => Err(Failed)
dir /mid => Err(Failed)
remove /mid => Err(Failed)
look /mid/b => Err(Failed)
file /mid/b text => Err(Failed)
dir /mid/b => Err(Failed)
remove /mid/b => Err(Failed)
look /mid/new => Err(Failed)
file /mid/new text => Err(Failed)
dir /mid/new => Err(Failed)
remove /mid/new => Err(Failed)
look /loose => Err(Failed)
file /loose text => Err(Failed)
dir /loose => Err(Failed)
remove /loose => Err(Failed)
has out => out
has tree/a/b => in
";

// Odd things in the place of what an agent leaves: each call fails and changes nothing, and the
// fault names the place.
pub const ODD: &str = "== odd_tree
folder
write tree no folder
look /a => Err(Failed)
fault => odd_tree/tree OfAnotherKind
file /a text => Err(Failed)
dir /a => Err(Failed)
remove /a => Err(Failed)
fault => odd_tree/tree OfAnotherKind
has tree => no folder
== odd_link
folder
folder real
link tree real
file /a text => Err(Failed)
fault => odd_link/tree OfAnotherKind
has real/a => no file
== odd_table
folder
folder perms.tab
look /a => Err(Failed)
fault => odd_table/perms.tab OfAnotherKind
file /a text => Err(Failed)
has tree/a => no file
== odd_row
folder
write services.tab a running enabled 0|a on|
look /a => Err(Failed)
fault => odd_row/services.tab BadRow(2)
== odd_change
folder
write changes lock Z 5|what|
moment => Err(Failed)
fault => odd_change/changes BadRow(2)
== odd_journal
folder
write out run 4|
link journal out
append run 5| => Err(Failed)
fault => odd_journal/journal OfAnotherKind
has out => run 4|
== odd_stage
folder
link new out
file /a text => Err(Failed)
fault => odd_stage/new OfAnotherKind
look /a => Ok(Nothing)
== odd_node
file /d/a text => Ok(())
link tree/d/b a
file /d/b text => Err(Failed)
fault => odd_node/tree/d/b OfAnotherKind
dir /d/a => Err(Failed)
fault => odd_node/tree/d/a Misfit
service none running enabled 0 => Err(Failed)
fault => odd_node/services.tab Misfit
has tree/d/a => text
== odd_second_name
folder
write other text
folder tree
second tree/a other
file /a new => Ok(())
has other => text
has tree/a => new
== odd_holder
file /a 1 => Ok(())
fault => none
2 look /a => Err(Failed)
2 fault => odd_holder Taken
";

// Which records wait, and what is there when another agent follows.
pub const RECORDS: &str = "== records
append run 4|open 1 main:1@2 Z| => Ok(())
file /a/b text => Ok(())
append done 1 repaired 1| => Ok(())
has journal => run 4|open 1 main:1@2 Z|done 1 repaired 1|
agent
look /a/b => Ok(File(4))
append open 2 main:2@3 Z| => Ok(())
file /a/c text => Ok(())
agent
look /a/c => Ok(File(4))
append done 2 repaired 1| => Ok(())
lock 7 => Ok(())
has changes => behind 204 Z 7|
agent
moment => Ok(Some(7))
append open 3 main:3@4 Z| => Ok(())
has locks.tab => Z 7|
has changes => nothing
append done 3 failed F1| => Ok(())
lock 8 => Ok(())
lock 9 => Ok(())
has changes => behind 302 Z 8|lock Z 9|
tables => true
has changes => nothing
has locks.tab => Z 9|
has journal => run 4|open 1 main:1@2 Z|done 1 repaired 1|open 2 main:2@3 Z|done 2 repaired 1|open 3 main:3@4 Z|done 3 failed F1|
== lock_without_its_record
folder
write journal run 4|open 1 main:1@2 Z|
write changes service a running enabled 0|lock Z 3|behind 105 Z 5|
moment => Ok(Some(3))
append run 6| => Ok(())
has changes => nothing
has locks.tab => Z 3|
has services.tab => a running enabled 0|
agent
moment => Ok(Some(3))
== lock_with_its_record
folder
write journal run 4|open 1 main:1@2 Z|done 1 repaired 1|
write changes lock Z 3|behind 105 Z 5|
moment => Ok(Some(5))
has changes => lock Z 3|behind 105 Z 5|
tables => true
has locks.tab => Z 5|
";
