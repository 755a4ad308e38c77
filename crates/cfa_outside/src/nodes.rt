// What stands at each path.
ghost use Rattle.std.specs.Prelude.{◌≡◌, ◌≤◌, if◌then◌else◌, not, [], IsTrue, IfOk, OnOk, OnErr, IsErrOf, IfSome, IfNone, option_copied, length, drop};
ghost use Rattle.std.specs.FinMap as map;
ghost use Rattle.cfa_outside.specs.Worlds.{put_file, put_directory, set_perms, with_perms, file_with, root_perms, with_dir, with_dirs, above, above_from, is_file, is_directory, is_blocked, is_in_directories, has_below, below_front, children_of, look_at, takes_file, takes_directory, is_removable, bytes_in, perms_in, is_free, HasParents};
ghost use Rattle.cfa_outside.specs.OfTheCode.{IsNextSlash};

use crate::{Look, Node, NodeErr, Path, Perms};
use cfa_base::{Bytes, Name, NoMemory, TextMap};
use std::alloc::Global;
use std::marker::Model;

/// What stands at each path: each node stands in directories up to the root. Contracts see a finite map from the bytes
/// of the paths. A look-up or a change costs a logarithm of comparisons for each directory above.
#[derive(Debug, Drop)]
pub struct Nodes {
    rows: TextMap<Node>,
}

impl Model for Nodes {
    ghost use Rattle.cfa_outside.specs.Worlds.{NodeMap, HasParents};
    ghost use Rattle.cfa_outside.specs.OfTheCode.{node_map_code};

    ghost Value = { NodeMap };

    ghost coded = { node_map_code };

    ghost view = { λ n. n.rows };

    ghost invariant = { λ n. HasParents n.rows };
}

impl Nodes {
    /// No nodes, without taking memory.
    pub fn new(alloc: Global) -> Nodes
        ensures { result ≡ map.empty }
    {
        Nodes {
            rows: TextMap::new(alloc),
        }
    }

    /// The node at a path, without taking memory.
    pub fn get(&self, path: &Path) -> Option<&Node>
        ensures { option_copied result ≡ map.get self.now path.now }
    {
        self.rows.get(path.text().as_str())
    }

    /// Whether something stands at a path, without taking memory.
    pub fn contains(&self, path: &Path) -> bool
        ensures { result ≡ map.contains_key self.now path.now }
    {
        self.rows.contains(path.text().as_str())
    }

    /// What a look at a path shows.
    #[tactic(auto, unfolding(crate::specs::Worlds::look_at))]
    pub fn look(&self, alloc: Global, path: &Path) -> Result<Look, NoMemory>
        ensures { IfOk result (λ look. look ≡ look_at self.now path.now) }
    {
        match self.get(path) {
            Some(Node::File(bytes, _)) => Ok(Look::File(bytes.as_slice().len() as u64)),
            Some(Node::Dir(_)) => Ok(Look::Dir(!self.has_below(alloc, path)?)),
            None if self.is_blocked(path) => Ok(Look::Blocked),
            None => Ok(Look::Nothing),
        }
    }

    /// The bytes of the file at a path, without taking memory. `None` where no file stands there.
    pub fn bytes(&self, path: &Path) -> Option<&Bytes>
        ensures { option_copied result ≡ bytes_in (map.get self.now path.now) }
    {
        match self.get(path) {
            Some(Node::File(bytes, _)) => Some(bytes),
            Some(Node::Dir(_)) => None,
            None => None,
        }
    }

    /// The permissions of what stands at a path, without taking memory. `None` where nothing stands there.
    pub fn perms(&self, path: &Path) -> Option<&Perms>
        ensures { option_copied result ≡ perms_in (map.get self.now path.now) }
    {
        match self.get(path) {
            Some(Node::File(_, perms)) => Some(perms),
            Some(Node::Dir(perms)) => Some(perms),
            None => None,
        }
    }

    /// Whether a file stands above the path, without taking memory.
    pub fn is_blocked(&self, path: &Path) -> bool
        ensures { result ≡ is_blocked self.now path.now }
    {
        meets_file(&self.rows, path.text().as_str())
    }

    /// Whether a node stands below the path.
    pub fn has_below(&self, alloc: Global, path: &Path) -> Result<bool, NoMemory>
        ensures { IfOk result (λ below. below ≡ has_below self.now path.now) }
    {
        Ok(self.rows.has_front(&front_of(alloc, path)?))
    }

    /// How many nodes stand directly in the directory at the path. Each that stands below it is visited.
    pub fn children(&self, alloc: Global, path: &Path) -> Result<u64, NoMemory>
        ensures { IfOk result (λ count. count ≡ children_of self.now path.now) }
    {
        Ok(self.rows.count_leaves(&front_of(alloc, path)?))
    }

    /// Each node stands in directories up to the root.
    pub fn have_parents(&self)
        ensures { HasParents self.now }
    {
        let _ = &self.rows;
    }

    /// Adds a node at a path where none stands. `Misplaced` comes where one stands there, or where what stands above
    /// isn't directories up to the root: so the directories are added first. After an error the nodes are as before.
    pub fn add(&mut self, alloc: Global, path: &Path, node: Node) -> Result<(), NodeErr>
        ensures ok { OnOk result (self.new ≡ map.insert self.old path.now node) }
        ensures err { OnErr result (self.new ≡ self.old) }
        ensures free { OnOk result (IsTrue (is_free self.old path.now)) }
        ensures misplaced { IsErrOf result NodeErr.Misplaced
            → IsTrue (not (is_free self.old path.now)) }
    {
        let text = path.text().as_str();
        if !tests_as_free(&self.rows, text) {
            drop(node);
            return Err(NodeErr::Misplaced);
        }
        Ok(put(alloc, &mut self.rows, text, node)?)
    }

    /// Gives the file at a path these bytes. It is made with mode 600 where it is missing, and each missing directory
    /// above with mode 700, all with owner and group `root`. `look` and `Look::takes_file` tell whether a file may be
    /// put there. After want of memory the nodes are as before.
    pub fn put_file(&mut self, alloc: Global, path: &Path, bytes: &Bytes) -> Result<(), NoMemory>
        requires { IsTrue (takes_file (look_at self.old path.now)) }
        ensures ok { OnOk result (self.new ≡ put_file path.now bytes.now self.old) }
        ensures err { OnErr result (self.new ≡ self.old) }
    {
        put_file(alloc, &mut self.rows, path.text().as_str(), bytes)
    }

    /// Makes a directory with mode 700 at a path, and each missing one above, all with owner and group `root`. `look`
    /// and `Look::takes_directory` tell whether it may be put there. After want of memory the nodes are as before.
    pub fn put_directory(&mut self, alloc: Global, path: &Path) -> Result<(), NoMemory>
        requires { IsTrue (takes_directory (look_at self.old path.now)) }
        ensures ok { OnOk result (self.new ≡ put_directory path.now self.old) }
        ensures err { OnErr result (self.new ≡ self.old) }
    {
        put_directory(alloc, &mut self.rows, path.text().as_str())
    }

    /// Takes away what stands at a path, without taking memory. `look` and `Look::is_removable` tell whether it may be.
    pub fn remove(&mut self, path: &Path)
        requires { IsTrue (is_removable (look_at self.old path.now)) }
        ensures { self.new ≡ map.remove self.old path.now }
    {
        self.rows.remove(path.text().as_str());
    }

    /// Gives what stands at a path these permissions. After want of memory the nodes are as before.
    pub fn set_perms(&mut self, alloc: Global, path: &Path, perms: &Perms) -> Result<(), NoMemory>
        ensures ok { OnOk result (self.new ≡ set_perms path.now perms.now self.old) }
        ensures err { OnErr result (self.new ≡ self.old) }
    {
        set_perms(alloc, &mut self.rows, path.text().as_str(), perms)
    }
}

// The path and a slash, with which each path below it begins.
fn front_of(alloc: Global, path: &Path) -> Result<Name, NoMemory>
    ensures { IfOk result (λ front. front ≡ below_front path.now) }
{
    let mut front = String::from_str(alloc, path.text().as_str())?;
    front.push_str("/")?;
    Ok(Name::from_string(front)?)
}

fn tests_as_file(node: Option<&Node>) -> bool
    ensures { result ≡ is_file (option_copied node.entry) }
{
    matches!(node, Some(Node::File(_, _)))
}

fn tests_as_directory(node: Option<&Node>) -> bool
    ensures { result ≡ is_directory (option_copied node.entry) }
{
    matches!(node, Some(Node::Dir(_)))
}

fn meets_file(rows: &TextMap<Node>, path: &str) -> bool
    ensures { result ≡ is_blocked rows.now path.now }
{
    for i in 1..path.len() {
        if path.as_bytes()[i] == b'/' && tests_as_file(rows.get(&path[..i])) {
            return true;
        }
    }
    false
}

fn lies_in_directories(rows: &TextMap<Node>, path: &str) -> bool
    ensures { result ≡ is_in_directories rows.now path.now }
{
    for i in 1..path.len() {
        if path.as_bytes()[i] == b'/' && !tests_as_directory(rows.get(&path[..i])) {
            return false;
        }
    }
    true
}

fn tests_as_free(rows: &TextMap<Node>, path: &str) -> bool
    ensures { result ≡ is_free rows.now path.now }
{
    !rows.contains(path) && lies_in_directories(rows, path)
}

/// The permissions of what is new: a mode, with the owner and the group `root`.
pub fn root_perms(alloc: Global, mode: u16) -> Result<Perms, NoMemory>
    ensures { IfOk result (λ p. p ≡ root_perms mode) }
{
    Ok(Perms {
        mode,
        owner: Name::from_text(alloc, "root")?,
        group: Name::from_text(alloc, "root")?,
    })
}

// A file with these bytes, and the permissions of the file that stands there or those of a new one.
fn file_in_place(alloc: Global, here: Option<&Node>, bytes: &Bytes) -> Result<Node, NoMemory>
    ensures { IfOk result (λ n. n ≡ file_with bytes.now (option_copied here.entry)) }
{
    let perms = match here {
        Some(Node::File(_, perms)) => perms.copy(alloc)?,
        _ => root_perms(alloc, 0o600)?,
    };
    Ok(Node::File(bytes.copy(alloc)?, perms))
}

// The place of the first slash from a place on.
fn slash_from(path: &str, from: usize) -> Option<usize>
    requires { from ≤ length path.now }
    ensures none { IfNone result (above_from path.now from (drop from path.now) ≡ []) }
    ensures some { IfSome result (λ i. IsNextSlash path.now from i) }
{
    for i in from..path.len() {
        if path.as_bytes()[i] == b'/' {
            return Some(i);
        }
    }
    None
}

// Puts a node at a path, in the place of the one that stands there.
fn put(alloc: Global, rows: &mut TextMap<Node>, path: &str, node: Node) -> Result<(), NoMemory>
    ensures ok { OnOk result (rows.new ≡ map.insert rows.old path.now node) }
    ensures err { OnErr result (rows.new ≡ rows.old) }
{
    rows.insert(Name::from_text(alloc, path)?, node)
}

// Makes a directory at a path where nothing stands. The answer is whether it was made.
fn make_missing(alloc: Global, rows: &mut TextMap<Node>, path: &str) -> Result<bool, NoMemory>
    ensures ok { OnOk result (rows.new ≡ with_dir path.now rows.old) }
    ensures undone { IfOk result (λ is_made.
        (if is_made then map.remove rows.new path.now else rows.new) ≡ rows.old) }
    ensures err { OnErr result (rows.new ≡ rows.old) }
{
    if rows.get(path).is_some() {
        return Ok(false);
    }
    put(alloc, rows, path, Node::Dir(root_perms(alloc, 0o700)?))?;
    Ok(true)
}

// Makes the directories that are missing before the slashes from a place on, and then puts the node. What was made is
// taken out again where memory ends.
fn put_from(
    alloc: Global,
    rows: &mut TextMap<Node>,
    path: &str,
    from: usize,
    node: Node,
) -> Result<(), NoMemory>
    requires { from ≤ length path.now }
    ensures ok { OnOk result (rows.new
        ≡ map.insert (with_dirs (above_from path.now from (drop from path.now)) rows.old)
        path.now node) }
    ensures err { OnErr result (rows.new ≡ rows.old) }
{
    let Some(i) = slash_from(path, from) else {
        return put(alloc, rows, path, node);
    };
    let dir = &path[..i];
    let is_made = make_missing(alloc, rows, dir)?;
    let result = put_from(alloc, rows, path, i + 1, node);
    if is_made && result.is_err() {
        rows.remove(dir);
    }
    result
}

fn put_node(alloc: Global, rows: &mut TextMap<Node>, path: &str, node: Node) -> Result<(), NoMemory>
    ensures ok { OnOk result
        (rows.new ≡ map.insert (with_dirs (above path.now) rows.old) path.now node) }
    ensures err { OnErr result (rows.new ≡ rows.old) }
{
    put_from(alloc, rows, path, path.len().min(1), node)
}

#[tactic(auto, unfolding(crate::specs::Worlds::put_file))]
fn put_file(
    alloc: Global,
    rows: &mut TextMap<Node>,
    path: &str,
    bytes: &Bytes,
) -> Result<(), NoMemory>
    ensures ok { OnOk result (rows.new ≡ put_file path.now bytes.now rows.old) }
    ensures err { OnErr result (rows.new ≡ rows.old) }
{
    let node = file_in_place(alloc, rows.get(path), bytes)?;
    put_node(alloc, rows, path, node)
}

#[tactic(auto, unfolding(crate::specs::Worlds::put_directory))]
fn put_directory(alloc: Global, rows: &mut TextMap<Node>, path: &str) -> Result<(), NoMemory>
    ensures ok { OnOk result (rows.new ≡ put_directory path.now rows.old) }
    ensures err { OnErr result (rows.new ≡ rows.old) }
{
    let perms = root_perms(alloc, 0o700)?;
    put_node(alloc, rows, path, Node::Dir(perms))
}

fn node_with(alloc: Global, node: &Node, perms: &Perms) -> Result<Node, NoMemory>
    ensures { IfOk result (λ n. n ≡ with_perms perms.now node.now) }
{
    match node {
        Node::File(bytes, _) => Ok(Node::File(bytes.copy(alloc)?, perms.copy(alloc)?)),
        Node::Dir(_) => Ok(Node::Dir(perms.copy(alloc)?)),
    }
}

#[tactic(auto, unfolding(crate::specs::Worlds::set_perms))]
fn set_perms(
    alloc: Global,
    rows: &mut TextMap<Node>,
    path: &str,
    perms: &Perms,
) -> Result<(), NoMemory>
    ensures ok { OnOk result (rows.new ≡ set_perms path.now perms.now rows.old) }
    ensures err { OnErr result (rows.new ≡ rows.old) }
{
    let Some(node) = rows.get(path) else {
        return Ok(());
    };
    let node = node_with(alloc, node, perms)?;
    put(alloc, rows, path, node)
}
