// The reading of guards, token by token.
ghost use Rattle.std.specs.Prelude.{◌≡◌, ◌-◌, [], ◌∷◌, Some, map, IfOk, IfErr};
ghost use Rattle.cfa_tree.specs.Grammar.{unlimited, depth_limit, conj_of, guard_of};
ghost use Rattle.cfa_tree.specs.Plain.{plain_expr};
ghost use Rattle.cfa_tree.specs.Tree.{class};
ghost use Rattle.cfa_tree.specs.Guards.{more_levels, level_count, negated_by, level_tree, atom_taken, after_and, after_or, wants_step, has_step, guard_step, guard_end, paren_closed, empty_level, guard_start, has_atom};
ghost use Rattle.cfa_tree.specs.Room.{has_room};
ghost use Rattle.cfa_tree.specs.SeenGuards.{seen_exprs, seen_level, seen_levels, seen_guard, seen_guard_progress, GuardRefused};
ghost use Rattle.cfa_tree.specs.declared.guards.GuardErr.TheVariants.{NoMemory};

use crate::Expr;
use cfa_base as base;
use cfa_base::{Kind, Name};
use std::alloc::{AllocError, AllocFailed, Global};
use thiserror::Error;

/// The levels that may be opened at once: by a guard or by the text of a class expression its parentheses and `!`, and
/// by a policy also its calls.
pub const DEPTH_LIMIT: usize = 16;

/// Why a token can't continue a guard.
#[derive(Clone, Copy, Debug, PartialEq, Eq, Error)]
pub enum GuardErr {
    /// No guard goes on with this token.
    #[error("a token that can't stand here")]
    Unexpected,
    /// The token opens a 17th level.
    #[error("more than 16 levels")]
    TooDeep,
    #[error("out of memory")]
    NoMemory,
}

impl From<base::NoMemory> for GuardErr {
    ghost from_gives = { λ _ e. e ≡ NoMemory };

    fn from(_: base::NoMemory) -> Self {
        GuardErr::NoMemory
    }
}

impl From<AllocError> for GuardErr {
    ghost from_gives = { λ _ e. e ≡ NoMemory };

    fn from(_: AllocError) -> Self {
        GuardErr::NoMemory
    }
}

impl<T: Drop> From<AllocFailed<T>> for GuardErr {
    ghost from_gives = { λ _ e. e ≡ NoMemory };

    fn from(_: AllocFailed<T>) -> Self {
        GuardErr::NoMemory
    }
}

/// What was read inside one parenthesis, or outside all: whole conjs, atoms of a further conj, and how many `!` after
/// these.
#[derive(Drop)]
pub struct GuardLevel {
    pub conjs: Vec<Expr>,
    pub atoms: Vec<Expr>,
    pub negations: usize,
}

/// Where a guard stands: an atom is wanted in a level, or one was read as the last of some atoms behind some conjs;
/// behind these stand the levels around, the innermost last.
#[derive(Drop)]
pub enum GuardState {
    WantsAtom(GuardLevel, Vec<GuardLevel>),
    HasAtom(Vec<Expr>, Vec<Expr>, Vec<GuardLevel>),
}

/// What a token makes of a guard: it goes on, or it has ended before the token.
#[derive(Drop)]
pub enum GuardProgress {
    GoesOn(GuardState),
    Ended(Expr),
}

impl GuardLevel {
    fn new(alloc: Global) -> GuardLevel
        ensures { seen_level result ≡ empty_level }
    {
        GuardLevel {
            conjs: Vec::new(alloc),
            atoms: Vec::new(alloc),
            negations: 0,
        }
    }
}

// One atom alone is itself.
fn joined_atoms(mut atoms: Vec<Expr>) -> Expr
    ensures { plain_expr result ≡ conj_of (map plain_expr atoms.items) }
{
    if atoms.len() == 1 {
        atoms.pop().unwrap()
    } else {
        Expr::And(atoms)
    }
}

// One conj alone is itself.
fn joined_conjs(mut conjs: Vec<Expr>) -> Expr
    ensures { plain_expr result ≡ guard_of (map plain_expr conjs.items) }
{
    if conjs.len() == 1 {
        conjs.pop().unwrap()
    } else {
        Expr::Or(conjs)
    }
}

/// The expression that whole conjs and the atoms of a last one are.
pub(crate) fn level_expr(mut conjs: Vec<Expr>, atoms: Vec<Expr>) -> Result<Expr, base::NoMemory>
    ensures { IfOk result
        (λ e. plain_expr e ≡ level_tree (map plain_expr conjs.items) (map plain_expr atoms.items)) }
{
    conjs.push(joined_atoms(atoms))?;
    Ok(joined_conjs(conjs))
}

fn negated(alloc: Global, times: usize, expr: Expr) -> Result<Expr, base::NoMemory>
    ensures { IfOk result (λ e. plain_expr e ≡ negated_by times (plain_expr expr)) }
{
    let mut inner = expr;
    for _i in 0..times {
        inner = Expr::Not(Box::new(alloc, inner)?);
    }
    Ok(inner)
}

// An atom was read, and the `!` before it are closed.
fn atom_taken(
    alloc: Global,
    level: GuardLevel,
    expr: Expr,
    outer: Vec<GuardLevel>,
) -> Result<GuardState, base::NoMemory>
    ensures { IfOk result
        (λ s. seen_guard s
        ≡ atom_taken (seen_level level) (plain_expr expr) (seen_levels outer.items)) }
{
    let GuardLevel {
        conjs,
        mut atoms,
        negations,
    } = level;
    atoms.push(negated(alloc, negations, expr)?)?;
    Ok(GuardState::HasAtom(conjs, atoms, outer))
}

// Whether one level more may be opened.
fn has_room(negations: usize, outer: &[GuardLevel]) -> bool
    ensures { result
        ≡ has_room depth_limit (more_levels negations (level_count (seen_levels outer.now))) }
{
    let mut left = DEPTH_LIMIT;
    for level in outer {
        left = left.saturating_sub(level.negations).saturating_sub(1);
    }
    negations < left
}

fn take_wanted(
    alloc: Global,
    level: GuardLevel,
    outer: Vec<GuardLevel>,
    kind: Kind,
    text: &str,
) -> Result<GuardState, GuardErr>
    ensures ok { IfOk result
        (λ s. wants_step depth_limit (seen_level level) (seen_levels outer.items) kind text.now
        ≡ Some (seen_guard s)) }
    ensures refused { IfErr result (GuardRefused
        (wants_step depth_limit (seen_level level) (seen_levels outer.items) kind text.now)
        (wants_step unlimited (seen_level level) (seen_levels outer.items) kind text.now)) }
{
    let mut level = level;
    let mut outer = outer;
    match kind {
        Kind::Word => {
            let class = Expr::Class(Name::from_text(alloc, text)?);
            Ok(atom_taken(alloc, level, class, outer)?)
        }
        Kind::Bang => {
            if !has_room(level.negations, &outer) {
                return Err(GuardErr::TooDeep);
            }
            level.negations += 1;
            Ok(GuardState::WantsAtom(level, outer))
        }
        Kind::OpenParen => {
            if !has_room(level.negations, &outer) {
                return Err(GuardErr::TooDeep);
            }
            outer.push(level)?;
            Ok(GuardState::WantsAtom(GuardLevel::new(alloc), outer))
        }
        _ => Err(GuardErr::Unexpected),
    }
}

// A token that continues no guard.
fn end_guard(
    conjs: Vec<Expr>,
    atoms: Vec<Expr>,
    outer: Vec<GuardLevel>,
) -> Result<GuardProgress, GuardErr>
    ensures ok { IfOk result
        (λ g. guard_end (seen_exprs conjs) (seen_exprs atoms) (seen_levels outer.items)
        ≡ Some (seen_guard_progress g)) }
    ensures refused { IfErr result (GuardRefused
        (guard_end (seen_exprs conjs) (seen_exprs atoms) (seen_levels outer.items))
        (guard_end (seen_exprs conjs) (seen_exprs atoms) (seen_levels outer.items))) }
{
    if outer.is_empty() {
        Ok(GuardProgress::Ended(level_expr(conjs, atoms)?))
    } else {
        Err(GuardErr::Unexpected)
    }
}

// A closing parenthesis behind an atom.
fn close_paren(
    alloc: Global,
    conjs: Vec<Expr>,
    atoms: Vec<Expr>,
    outer: Vec<GuardLevel>,
) -> Result<GuardProgress, base::NoMemory>
    ensures { IfOk result
        (λ g. paren_closed (seen_exprs conjs) (seen_exprs atoms) (seen_levels outer.items)
        ≡ Some (seen_guard_progress g)) }
{
    let mut outer = outer;
    let expr = level_expr(conjs, atoms)?;
    match outer.pop() {
        None => Ok(GuardProgress::Ended(expr)),
        Some(level) => Ok(GuardProgress::GoesOn(atom_taken(alloc, level, expr, outer)?)),
    }
}

// A further conj.
fn after_or(
    alloc: Global,
    conjs: Vec<Expr>,
    atoms: Vec<Expr>,
    outer: Vec<GuardLevel>,
) -> Result<GuardState, base::NoMemory>
    ensures { IfOk result
        (λ g. seen_guard g
        ≡ after_or (seen_exprs conjs) (seen_exprs atoms) (seen_levels outer.items)) }
{
    let mut conjs = conjs;
    conjs.push(joined_atoms(atoms))?;
    let level = GuardLevel {
        conjs,
        atoms: Vec::new(alloc),
        negations: 0,
    };
    Ok(GuardState::WantsAtom(level, outer))
}

// A further atom of the last conj.
fn after_and(conjs: Vec<Expr>, atoms: Vec<Expr>, outer: Vec<GuardLevel>) -> GuardState
    ensures { seen_guard result
        ≡ after_and (seen_exprs conjs) (seen_exprs atoms) (seen_levels outer.items) }
{
    let level = GuardLevel {
        conjs,
        atoms,
        negations: 0,
    };
    GuardState::WantsAtom(level, outer)
}

fn take_behind(
    alloc: Global,
    conjs: Vec<Expr>,
    atoms: Vec<Expr>,
    outer: Vec<GuardLevel>,
    kind: Kind,
) -> Result<GuardProgress, GuardErr>
    ensures ok { IfOk result
        (λ g. has_step (seen_exprs conjs) (seen_exprs atoms) (seen_levels outer.items) kind
        ≡ Some (seen_guard_progress g)) }
    ensures refused { IfErr result (GuardRefused
        (has_step (seen_exprs conjs) (seen_exprs atoms) (seen_levels outer.items) kind)
        (has_step (seen_exprs conjs) (seen_exprs atoms) (seen_levels outer.items) kind)) }
{
    match kind {
        Kind::Dot => Ok(GuardProgress::GoesOn(after_and(conjs, atoms, outer))),
        Kind::And => Ok(GuardProgress::GoesOn(after_and(conjs, atoms, outer))),
        Kind::Or => Ok(GuardProgress::GoesOn(after_or(alloc, conjs, atoms, outer)?)),
        Kind::CloseParen => Ok(close_paren(alloc, conjs, atoms, outer)?),
        _ => end_guard(conjs, atoms, outer),
    }
}

/// Nothing of a guard was read.
pub fn guard_start(alloc: Global) -> GuardState
    ensures { seen_guard result ≡ guard_start }
{
    GuardState::WantsAtom(GuardLevel::new(alloc), Vec::new(alloc))
}

/// A guard whose first atom is this class.
pub fn guard_with_class(alloc: Global, name: Name) -> Result<GuardState, base::NoMemory>
    ensures { IfOk result (λ g. seen_guard g ≡ has_atom [] (class name ∷ []) []) }
{
    atom_taken(
        alloc,
        GuardLevel::new(alloc),
        Expr::Class(name),
        Vec::new(alloc),
    )
}

/// What one more token, of this kind and spelling, makes of a guard.
pub fn take_in_guard(
    alloc: Global,
    guard: GuardState,
    kind: Kind,
    text: &str,
) -> Result<GuardProgress, GuardErr>
    ensures ok { IfOk result
        (λ g. guard_step depth_limit (seen_guard guard) kind text.now
        ≡ Some (seen_guard_progress g)) }
    ensures refused { IfErr result
        (GuardRefused (guard_step depth_limit (seen_guard guard) kind text.now)
        (guard_step unlimited (seen_guard guard) kind text.now)) }
{
    match guard {
        GuardState::WantsAtom(level, outer) => {
            Ok(GuardProgress::GoesOn(take_wanted(alloc, level, outer, kind, text)?))
        }
        GuardState::HasAtom(conjs, atoms, outer) => take_behind(alloc, conjs, atoms, outer, kind),
    }
}
