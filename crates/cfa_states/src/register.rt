// The instances that were listed, and where those stand that may be visited again.
ghost use Rattle.std.specs.Prelude.{◌≡◌, [], ◌∷◌, ◌++◌, Some, IfOk, IfSome, OnOk, OnErr};
ghost use Rattle.std.specs.FinMap as finite;
ghost use Rattle.cfa_states.specs.Names.{name_of};
ghost use Rattle.cfa_states.specs.Logs.{placed, with_place, seen_at, NotesPlace};

use cfa_base::{Name, NoMemory, TextMap};
use cfa_resolve::Instance;
use cfa_statuses::Status;
use std::alloc::Global;
use std::collections::BTreeMap;
use std::marker::Model;
use std::rc::RcStr;

// Places by paths, and of one path by key texts. A look-up and a change cost a logarithm of comparisons.
#[derive(Drop)]
pub(crate) struct Places {
    rows: BTreeMap<RcStr, TextMap<u32>>,
}

impl Model for Places {
    ghost use Rattle.std.specs.Rc.{rc_str_bytes};
    ghost use Rattle.cfa_base.specs.TextMaps.{text_map};
    ghost use Rattle.cfa_states.specs.Logs.{Places, places_code};

    ghost Value = { Places };

    ghost coded = { places_code };

    ghost view = { λ p. text_map rc_str_bytes p.rows.entries };
}

impl Places {
    fn new(alloc: Global) -> Places
        ensures { result ≡ finite.empty }
    {
        Places {
            rows: BTreeMap::new(alloc),
        }
    }

    fn find(&self, path: &Name, text: &Name) -> Option<u32>
        ensures { result ≡ placed self.now path.now text.now }
    {
        match self.rows.get(path.as_str()) {
            Some(texts) => texts.get(text.as_str()).copied(),
            None => None,
        }
    }

    fn note(&mut self, alloc: Global, path: Name, text: Name, place: u32) -> Result<(), NoMemory>
        ensures ok { OnOk result (self.new ≡ with_place self.old path text place) }
        ensures err { OnErr result (self.new ≡ self.old) }
    {
        match self.rows.get_mut(path.as_str()) {
            Some(texts) => texts.insert(text, place),
            None => {
                let mut texts = TextMap::new(alloc);
                texts.insert(text, place)?;
                self.rows.insert(path.into_key(), texts)?;
                Ok(())
            }
        }
    }
}

// Notes the place of an instance that may be visited again, since this visit comes in some runs alone.
fn note_if_unsure(
    alloc: Global,
    places: &mut Places,
    instance: &Instance,
    status: Status,
    place: u32,
) -> Result<(), NoMemory>
    ensures ok { OnOk result (NotesPlace places.old places.new instance.now place) }
    ensures err { OnErr result (places.new ≡ places.old) }
{
    match status {
        Status::Maybe => {
            let (path, text) = (instance.path.copy(alloc)?, instance.text.copy(alloc)?);
            places.note(alloc, path, text, place)
        }
        Status::No | Status::Yes => Ok(()),
    }
}

/// A place that is no `u32` is out of the reach of any memory.
pub(crate) fn short(place: usize) -> Result<u32, NoMemory>
    ensures { IfOk result (λ short. short ≡ place) }
{
    match u32::try_from(place) {
        Ok(place) => Ok(place),
        Err(_) => Err(NoMemory),
    }
}

/// Instances. Those that may be visited again are found by their paths and key texts. Contracts see the list.
#[derive(Drop)]
pub(crate) struct Register {
    instances: Vec<Instance>,
    places: Places,
}

impl Model for Register {
    ghost use Rattle.std.specs.Prelude.{List};
    ghost use Rattle.cfa_resolve.specs.declared.instances.Instance.{Instance as AnyInstance};
    ghost use Rattle.cfa_states.specs.Logs.{HasPlaces};

    ghost Value = { List AnyInstance };

    ghost view = { λ r. r.instances.items };

    ghost invariant = { λ r. HasPlaces r.places r.instances.items };
}

impl Register {
    /// No instances, without taking memory.
    pub fn new(alloc: Global) -> Register
        ensures { result ≡ [] }
    {
        Register {
            instances: Vec::new(alloc),
            places: Places::new(alloc),
        }
    }

    /// A place of an instance, if one was noted, without taking memory.
    pub fn find(&self, path: &Name, text: &Name) -> Option<u32>
        ensures { IfSome result (λ place. seen_at self.now place ≡ Some (path.now, text.now)) }
    {
        self.places.find(path, text)
    }

    /// Adds an instance at the end, which was visited with this status first, and answers its place. After want of memory the list
    /// is as it was.
    pub fn add(
        &mut self,
        alloc: Global,
        instance: &Instance,
        status: Status,
    ) -> Result<u32, NoMemory>
        ensures ok { OnOk result (self.new ≡ self.old ++ instance.now ∷ []) }
        ensures place { IfOk result (λ at. seen_at self.new at ≡ Some (name_of instance.now)) }
        ensures err { OnErr result (self.new ≡ self.old) }
    {
        let place = short(self.instances.len())?;
        let copy = instance.copy(alloc)?;
        self.instances.reserve(1)?;
        note_if_unsure(alloc, &mut self.places, instance, status, place)?;
        self.instances.push(copy).unwrap();
        Ok(place)
    }

    /// The instances, without taking memory.
    pub fn as_slice(&self) -> &[Instance]
        ensures { result.now ≡ self.now }
    {
        self.instances.as_slice()
    }

    /// The instances, without taking memory.
    pub fn into_vec(self) -> Vec<Instance>
        ensures { result.items ≡ self }
    {
        self.instances
    }
}
