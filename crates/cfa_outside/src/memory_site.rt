// A site in memory.
ghost use Rattle.std.specs.Prelude.{◌≡◌, [], ◌∷◌, ◌++◌, OnOk, OnErr, IfOk, IsTrue};
ghost use Rattle.cfa_outside.specs.Sites.{fits, after_change};
ghost use Rattle.cfa_outside.specs.Worlds.{HasParents};
ghost use Rattle.cfa_outside.specs.Turns.{is_stopped};
ghost use Rattle.cfa_outside.specs.declared.sites.Entry.TheVariants.{Did};

use crate::turns::Turns;
use crate::{Call, Change, Entry, Look, OutsideErr, Path, Perms, ServiceRow, Site, World};
use cfa_base::{Bytes, Key, Name, NoMemory};
use std::alloc::Global;

/// A world in memory, with a log. Calls are numbered from 1.
#[derive(Debug, Drop)]
pub struct MemorySite {
    world: World,
    log: Vec<Entry>,
    turns: Turns,
    stop: Option<u32>,
    changes: u32,
    ghost parents: { HasParents world.nodes },
}

impl MemorySite {
    ghost use Rattle.cfa_outside.specs.MemorySite.{world_of, log_of, turns_of, stops_after, changes_so_far, Sees};
    ghost use Rattle.cfa_outside.specs.Turns.{no_calls};

    /// A site with this world and an empty log. Its calls of the listed numbers fail, and after `stop` changes every
    /// call.
    pub fn new(
        alloc: Global,
        world: World,
        refuse: Vec<u32>,
        stop: Option<u32>,
    ) -> Result<MemorySite, NoMemory>
        ensures world { IfOk result (λ site. world_of site ≡ world) }
        ensures log { IfOk result (λ site. log_of site ≡ []) }
        ensures turns { IfOk result (λ site. turns_of site ≡ no_calls refuse.items) }
        ensures stop { IfOk result (λ site. stops_after site ≡ stop) }
        ensures changes { IfOk result (λ site. changes_so_far site ≡ 0) }
    {
        world.nodes.have_parents();
        Ok(MemorySite {
            world,
            log: Vec::new(alloc),
            turns: Turns::new(refuse),
            stop,
            changes: 0,
        })
    }

    /// The world as it stands, without taking memory.
    pub fn world(&self) -> &World
        ensures { result.now ≡ world_of self.now }
    {
        &self.world
    }

    /// The world as it stands, taken out without taking memory.
    pub fn into_world(self) -> World
        ensures { result ≡ world_of self }
    {
        self.world
    }

    /// The log so far, without taking memory.
    pub fn log(&self) -> &[Entry]
        ensures { result.now ≡ log_of self.now }
    {
        self.log.as_slice()
    }

    // Numbers a call, and logs it as refused where it fails.
    fn begin(&mut self, call: Call) -> Result<(), OutsideErr>
        ensures { Sees call self.old self.new result }
    {
        let is_listed = self.turns.take();
        if is_listed || tests_as_stopped(self.stop, self.changes) {
            self.log.push(Entry::Refused(call))?;
            self.turns.fail();
            return Err(OutsideErr::Failed);
        }
        Ok(())
    }
}

fn tests_as_stopped(stop: Option<u32>, changes: u32) -> bool
    ensures { result ≡ is_stopped stop changes }
{
    match stop {
        Some(most) => most <= changes,
        None => false,
    }
}

#[tactic(auto, unfolding(crate::specs::Sites::after_change))]
fn apply(alloc: Global, world: &mut World, change: &Change) -> Result<(), NoMemory>
    requires { IsTrue (fits change.now world.old) }
    ensures ok { OnOk result (world.new ≡ after_change change.now world.old) }
    ensures err { OnErr result (world.new ≡ world.old) }
{
    match change {
        Change::PutFile(path, bytes) => world.nodes.put_file(alloc, path, bytes),
        Change::PutDir(path) => world.nodes.put_directory(alloc, path),
        Change::Remove(path) => {
            world.nodes.remove(path);
            Ok(())
        }
        Change::SetPerms(path, perms) => world.nodes.set_perms(alloc, path, perms),
        Change::PutService(name, row) => world.services.insert(name.copy(alloc)?, *row),
        Change::PutLock(key, moment) => {
            let key = Name::from_text(alloc, key.text())?;
            world.locks.insert(key, *moment)
        }
        Change::Append(bytes) => world.journal.append(bytes.as_slice()),
    }
}

// Makes a change and logs it.
fn make(
    alloc: Global,
    world: &mut World,
    log: &mut Vec<Entry>,
    change: &Change,
) -> Result<(), NoMemory>
    requires { IsTrue (fits change.now world.old) }
    ensures world { OnOk result (world.new ≡ after_change change.now world.old) }
    ensures log { OnOk result (log.new.items ≡ log.old.items ++ Did change.now ∷ []) }
    ensures world_left { OnErr result (world.new ≡ world.old) }
    ensures log_left { OnErr result (log.new.items ≡ log.old.items) }
{
    log.push(Entry::Did(change.copy(alloc)?))?;
    let result = apply(alloc, world, change);
    if result.is_err() {
        log.truncate(log.len() - 1);
    }
    result
}

impl Site for MemorySite {
    ghost use Rattle.std.specs.FinMap as map;
    ghost use Rattle.std.specs.Prelude.{Some};
    ghost use Rattle.cfa_base.specs.Shown.{Follows};
    ghost use Rattle.cfa_outside.specs.Answered.{Answered};
    ghost use Rattle.cfa_outside.specs.MemorySite.{world_of, turns_of, stops_after, changes_so_far, changes_after, shown_of, fails_next, Sees};
    ghost use Rattle.cfa_outside.specs.Worlds.{is_readable, bytes_in, perms_in, children_of};
    ghost use Rattle.cfa_outside.specs.Sites.{look_of, adds};
    ghost use Rattle.cfa_outside.specs.Turns.{TakesTurn};
    ghost use Rattle.cfa_outside.specs.declared.sites.Entry.TheVariants.{Did, Refused};

    ghost shown = { shown_of };

    ghost parents = { λ site. site.parents };

    fn look(&mut self, alloc: Global, path: &Path) -> Result<Look, OutsideErr>
        ensures answer { IfOk result (λ look. look ≡ look_of (world_of self.old) path.now) }
        ensures seen { Sees Call.Look self.old self.new result }
    {
        self.begin(Call::Look)?;
        Ok(self.world.nodes.look(alloc, path)?)
    }

    fn read(&mut self, alloc: Global, path: &Path) -> Result<Bytes, OutsideErr>
        requires { IsTrue (is_readable (map.get (world_of self.old).nodes path.now)) }
        ensures answer { IfOk result
            (λ bytes. bytes_in (map.get (world_of self.old).nodes path.now) ≡ Some bytes) }
        ensures seen { Sees Call.Read self.old self.new result }
    {
        self.begin(Call::Read)?;
        match self.world.nodes.bytes(path) {
            Some(bytes) => Ok(bytes.copy(alloc)?),
            None => unreachable!(),
        }
    }

    fn perms(&mut self, alloc: Global, path: &Path) -> Result<Perms, OutsideErr>
        requires { IsTrue (map.contains_key (world_of self.old).nodes path.now) }
        ensures answer { IfOk result
            (λ perms. perms_in (map.get (world_of self.old).nodes path.now) ≡ Some perms) }
        ensures seen { Sees Call.Perms self.old self.new result }
    {
        self.begin(Call::Perms)?;
        match self.world.nodes.perms(path) {
            Some(perms) => Ok(perms.copy(alloc)?),
            None => unreachable!(),
        }
    }

    fn children(&mut self, alloc: Global, path: &Path) -> Result<u64, OutsideErr>
        ensures answer { IfOk result
            (λ count. count ≡ children_of (world_of self.old).nodes path.now) }
        ensures seen { Sees Call.Children self.old self.new result }
    {
        self.begin(Call::Children)?;
        Ok(self.world.nodes.children(alloc, path)?)
    }

    fn service(&mut self, alloc: Global, name: &Name) -> Result<Option<ServiceRow>, OutsideErr>
        ensures answer { IfOk result
            (λ row. row ≡ map.get (world_of self.old).services name.now) }
        ensures seen { Sees Call.Service self.old self.new result }
    {
        self.begin(Call::Service)?;
        Ok(self.world.services.get(name.as_str()).copied())
    }

    fn lock(&mut self, alloc: Global, key: &Key) -> Result<Option<u64>, OutsideErr>
        ensures answer { IfOk result
            (λ moment. moment ≡ map.get (world_of self.old).locks key.now) }
        ensures seen { Sees Call.Lock self.old self.new result }
    {
        self.begin(Call::Lock)?;
        Ok(self.world.locks.get(key.text()).copied())
    }

    fn change(&mut self, alloc: Global, change: &Change) -> Result<(), OutsideErr>
        requires { IsTrue (fits change.now (world_of self.old)) }
        ensures shown { Answered (λ _. Follows (adds (Did change.now ∷ [])))
            (adds (Refused Call.Change ∷ [])) (shown_of self.old) (shown_of self.new) result }
        ensures turn { TakesTurn (fails_next self.old)
            (turns_of self.old) (turns_of self.new) result }
        ensures stop { stops_after self.new ≡ stops_after self.old }
        ensures changes { changes_so_far self.new ≡ changes_after result (changes_so_far self.old) }
    {
        self.begin(Call::Change)?;
        make(alloc, &mut self.world, &mut self.log, change)?;
        self.world.nodes.have_parents();
        self.changes = self.changes.saturating_add(1);
        Ok(())
    }
}
