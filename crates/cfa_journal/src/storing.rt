// Records as a journal holds them.
ghost use Rattle.std.specs.Prelude.{◌≡◌, IfOk};
ghost use Rattle.cfa_journal.specs.Stored.{record_of};

use crate::{Digest, Record};
use cfa_base::{Key, Name, NoMemory, PromiseId};
use std::alloc::Global;
use std::marker::Model;

// The promise and the key of the lock that an `open` or a `fail` tells.
#[derive(Debug, Drop)]
struct Heading {
    id: PromiseId,
    key: Key,
}

// The file that a `file` tells, what stands there, and what is to stand there.
#[derive(Debug, Drop)]
struct Content {
    path: Name,
    before: Digest,
    after: Digest,
}

// A record whose promise or file, which not all records have, stands in memory of its own.
#[derive(Debug, Drop)]
enum Form {
    Run(u64),
    Run2(u64),
    Open(u32, Box<Heading>),
    File(u32, Box<Content>),
    Repaired(u32, u32),
    Failed(u32, u8),
    Fail(u32, u8, Box<Heading>),
}

/// A record with its parts borrowed.
#[derive(Clone, Copy, Debug)]
pub enum RecordRef<'a> {
    Run(u64),
    Run2(u64),
    Open(u32, &'a PromiseId, &'a Key),
    File(u32, &'a Name, &'a Digest, &'a Digest),
    Repaired(u32, u32),
    Failed(u32, u8),
    Fail(u32, &'a PromiseId, &'a Key, u8),
}

/// A record as a journal holds it, in few bytes where it has neither a promise nor a file. Contracts see the record.
#[derive(Debug, Drop)]
pub struct StoredRecord {
    form: Form,
}

impl Model for StoredRecord {
    ghost use Rattle.cfa_journal.specs.declared.records.Record.{Record};

    ghost Value = { Record };

    ghost use Rattle.cfa_journal.specs.Stored.{record_in};

    ghost view = { λ s. record_in s.form };
}

impl StoredRecord {
    /// Stores a record.
    pub(crate) fn new(alloc: Global, item: Record) -> Result<StoredRecord, NoMemory>
        ensures { IfOk result (λ stored. stored ≡ item) }
    {
        let form = match item {
            Record::Run(moment) => Form::Run(moment),
            Record::Run2(moment) => Form::Run2(moment),
            Record::Open(number, id, key) => {
                Form::Open(number, Box::new(alloc, Heading { id, key })?)
            }
            Record::File(number, path, before, after) => {
                let content = Content {
                    path,
                    before,
                    after,
                };
                Form::File(number, Box::new(alloc, content)?)
            }
            Record::Repaired(number, changes) => Form::Repaired(number, changes),
            Record::Failed(number, reason) => Form::Failed(number, reason),
            Record::Fail(number, id, key, reason) => {
                Form::Fail(number, reason, Box::new(alloc, Heading { id, key })?)
            }
        };
        Ok(StoredRecord { form })
    }

    /// The record, without taking memory.
    pub fn get(&self) -> RecordRef<'_>
        ensures { record_of result ≡ self.now }
    {
        match &self.form {
            Form::Run(moment) => RecordRef::Run(*moment),
            Form::Run2(moment) => RecordRef::Run2(*moment),
            Form::Open(number, heading) => RecordRef::Open(*number, &heading.id, &heading.key),
            Form::File(number, content) => {
                RecordRef::File(*number, &content.path, &content.before, &content.after)
            }
            Form::Repaired(number, changes) => RecordRef::Repaired(*number, *changes),
            Form::Failed(number, reason) => RecordRef::Failed(*number, *reason),
            Form::Fail(number, reason, heading) => {
                RecordRef::Fail(*number, &heading.id, &heading.key, *reason)
            }
        }
    }
}
