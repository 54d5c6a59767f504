//! Clauses, and the first that is refused.

ghost use Rattle.std.specs.Prelude.{◌≡◌, ◌⊎◌, ◌++◌, ◌∷◌, [], None, Some, IfOk, OnOk, MatchResult, is_some, map};
ghost use Rattle.math_terms.specs.Sorts.{meet};
ghost use Rattle.math_types.specs.Clauses as spec;
ghost use Rattle.math_types.specs.working.Seen.{seen, seen_group};

use crate::error::SortError;
use crate::expression::sort_of;
use crate::known::Known;
use math_terms::{Name, NoMemory, Sort, meet};
use res_ast::Expr;
use sqlite_items::Items;
use std::alloc::Global;

/// An expression of the text, with the sort that its place asks for.
#[derive(Drop)]
pub(crate) struct Clause<'c> {
    pub wanted: Sort,
    pub text: &'c Expr,
}

/// Clauses that know the same names.
#[derive(Drop)]
pub(crate) struct Group<'c> {
    pub known: Items<Known>,
    pub clauses: Items<Clause<'c>>,
}

/// Adds a clause that knows these names alone with itself.
pub(crate) fn add_alone<'c>(
    alloc: Global,
    groups: &mut Items<Group<'c>>,
    known: Items<Known>,
    wanted: Sort,
    text: &'c Expr,
) -> Result<(), NoMemory>
    ensures { OnOk result (map seen_group groups.new ≡ map seen_group groups.old ++ spec.group known (spec.clause wanted text.now ∷ []) ∷ []) }
{
    let mut clauses = Items::new(alloc);
    clauses.push(Clause { wanted, text })?;
    groups.push(Group { known, clauses })?;
    Ok(())
}

/// Refuses the first clause that is not as its place asks.
pub(crate) fn check_groups(
    alloc: Global,
    types: &[(Name, u32)],
    groups: &[Group<'_>],
) -> Result<(), SortError>
    ensures { MatchResult result (λ _. spec.first_refusal types.now (map seen_group groups.now) ≡ None) (λ e. (e ≡ SortError.NoMemory) ⊎ (spec.first_refusal types.now (map seen_group groups.now) ≡ Some e)) }
{
    for group in groups {
        check_clauses(
            alloc,
            group.known.as_slice(),
            types,
            group.clauses.as_slice(),
        )?;
    }
    Ok(())
}

fn check_clauses(
    alloc: Global,
    known: &[Known],
    types: &[(Name, u32)],
    clauses: &[Clause<'_>],
) -> Result<(), SortError>
    ensures { MatchResult result (λ _. spec.first_in known.now types.now (map seen clauses.now) ≡ None) (λ e. (e ≡ SortError.NoMemory) ⊎ (spec.first_in known.now types.now (map seen clauses.now) ≡ Some e)) }
{
    for clause in clauses {
        check(alloc, known, types, clause)?;
    }
    Ok(())
}

fn check(
    alloc: Global,
    known: &[Known],
    types: &[(Name, u32)],
    clause: &Clause<'_>,
) -> Result<(), SortError>
    ensures { MatchResult result (λ _. spec.refusal known.now types.now (seen clause.now) ≡ None) (λ e. (e ≡ SortError.NoMemory) ⊎ (spec.refusal known.now types.now (seen clause.now) ≡ Some e)) }
{
    let sort = sort_of(alloc, clause.text, known, types)?;
    if meets(alloc, &sort, &clause.wanted)? {
        Ok(())
    } else {
        Err(SortError::Sort { at: clause.text.at })
    }
}

fn meets(alloc: Global, s: &Sort, t: &Sort) -> Result<bool, NoMemory>
    ensures { IfOk result (λ b. b ≡ is_some (meet s.now t.now)) }
{
    Ok(meet(alloc, s, t)?.is_some())
}
