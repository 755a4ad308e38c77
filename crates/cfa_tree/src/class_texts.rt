// The reading of class texts.
ghost use Rattle.std.specs.Prelude.{◌≡◌, ◌<◌, length, slice_index, false, Some, None, IfOk, IsErrOf};
ghost use Rattle.std.specs.List.{list_all};
ghost use Rattle.cfa_tree.specs.ClassErrs.{err_of};
ghost use Rattle.cfa_tree.specs.ClassFronts.{is_blank, TellsFront};
ghost use Rattle.cfa_tree.specs.ClassTexts.{IsExpression, stays_on_line, expression_of, state_of, whole_guard};
ghost use Rattle.cfa_tree.specs.Grammar.{depth_limit};
ghost use Rattle.cfa_tree.specs.Guards.{guard_step};
ghost use Rattle.cfa_tree.specs.Plain.{plain_expr};
ghost use Rattle.cfa_tree.specs.SeenGuards.{seen_guard};
ghost use Rattle.cfa_tree.specs.Tree.{ExprTree};

use crate::guards::level_expr;
use crate::{Expr, GuardErr, GuardProgress, GuardState, guard_start, take_in_guard};
use cfa_base as base;
use cfa_base::{Kind, Name};
use cfa_lexer::token_len;
use std::alloc::Global;
use thiserror::Error;

/// Why a text has no class expression.
#[derive(Clone, Copy, Debug, PartialEq, Eq, Error)]
pub enum ExprErr {
    /// The text is no class expression: by the grammar, by a newline, a carriage return or a `#`, or by opening a 17th
    /// level.
    #[error("no class expression")]
    BadExpression,
    #[error("out of memory")]
    NoMemory,
}

impl From<base::NoMemory> for ExprErr {
    ghost use Rattle.cfa_tree.specs.declared.class_texts.ExprErr.TheVariants.{NoMemory};

    ghost from_gives = { λ _ e. e ≡ NoMemory };

    fn from(_: base::NoMemory) -> Self {
        ExprErr::NoMemory
    }
}

impl From<GuardErr> for ExprErr {
    ghost from_gives = { λ g e. e ≡ err_of g };

    fn from(error: GuardErr) -> Self {
        match error {
            GuardErr::Unexpected => ExprErr::BadExpression,
            GuardErr::TooDeep => ExprErr::BadExpression,
            GuardErr::NoMemory => ExprErr::NoMemory,
        }
    }
}

fn is_blank(byte: u8) -> bool
    ensures { result ≡ is_blank byte }
{
    byte == b' ' || byte == b'\t'
}

// Whether a class text may have this byte.
fn stays_on_line(byte: u8) -> bool
    ensures { result ≡ stays_on_line byte }
{
    !matches!(byte, b'\n' | b'\r' | b'#')
}

fn stay_on_line(bytes: &[u8]) -> bool
    ensures { result ≡ list_all stays_on_line bytes.now }
{
    bytes.iter().all(|byte| stays_on_line(*byte))
}

// The kind of the longest token at the front and how many bytes it has, or `None` where no guard goes on so.
fn front_token(bytes: &[u8]) -> Option<(Kind, usize)>
    requires some { 0 < length bytes.now }
    requires begun { is_blank (slice_index bytes.now 0) ≡ false }
    ensures { TellsFront bytes.now result }
{
    let Some((kind, len)) = token_len(bytes) else {
        return None;
    };
    if stay_on_line(&bytes[..len]) {
        Some((kind, len))
    } else {
        None
    }
}

// A token, which may not end the expression.
fn take_token(
    alloc: Global,
    guard: GuardState,
    kind: Kind,
    text: &str,
) -> Result<GuardState, ExprErr>
    ensures ok { IfOk result
        (λ g. state_of (guard_step depth_limit (seen_guard guard) kind text.now)
        ≡ Some (seen_guard g)) }
    ensures bad { IsErrOf result ExprErr.BadExpression →
        state_of (guard_step depth_limit (seen_guard guard) kind text.now) ≡ None }
{
    match take_in_guard(alloc, guard, kind, text)? {
        GuardProgress::GoesOn(guard) => Ok(guard),
        GuardProgress::Ended(_) => Err(ExprErr::BadExpression),
    }
}

// The expression of a guard behind which the text ends.
fn whole_expr(guard: GuardState) -> Result<Expr, ExprErr>
    ensures ok { IfOk result (λ e. whole_guard (seen_guard guard) ≡ Some (plain_expr e)) }
    ensures bad { IsErrOf result ExprErr.BadExpression → whole_guard (seen_guard guard) ≡ None }
{
    match guard {
        GuardState::WantsAtom(_, _) => Err(ExprErr::BadExpression),
        GuardState::HasAtom(conjs, atoms, outer) => {
            if outer.is_empty() {
                Ok(level_expr(conjs, atoms)?)
            } else {
                Err(ExprErr::BadExpression)
            }
        }
    }
}

// The class expression that a text is.
fn read_text(alloc: Global, text: &str) -> Result<Expr, ExprErr>
    ensures value { IfOk result (λ e. expression_of text.now ≡ Some (plain_expr e)) }
    ensures bad { IsErrOf result ExprErr.BadExpression → expression_of text.now ≡ None }
{
    let mut guard = guard_start(alloc);
    let mut rest = text;
    while !rest.is_empty() {
        let bytes = rest.as_bytes();
        if is_blank(bytes[0]) {
            let (_, after) = rest.split_at(1);
            rest = after;
            continue;
        }
        let Some((kind, len)) = front_token(bytes) else {
            return Err(ExprErr::BadExpression);
        };
        let (token, after) = rest.split_at(len);
        guard = take_token(alloc, guard, kind, token)?;
        rest = after;
    }
    whole_expr(guard)
}

/// The class expression that a text is: by the grammar's line of guards, with spaces and tabs before, between and behind
/// its tokens. `BadExpression` comes exactly where the text is none, or opens more than 16 levels at once.
pub fn read_expr(alloc: Global, text: &Name) -> Result<Expr, ExprErr>
    ensures value { IfOk result (λ e. expression_of text.now ≡ Some (plain_expr e)) }
    ensures bad { IsErrOf result ExprErr.BadExpression → expression_of text.now ≡ None }
    ensures reads { IfOk result (λ e. IsExpression text.now (plain_expr e)) }
    ensures none_reads { IsErrOf result ExprErr.BadExpression →
        (tree : ExprTree) → ¬ IsExpression text.now tree }
{
    read_text(alloc, text.as_str())
}
