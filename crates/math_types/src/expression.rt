//! The sorts of expressions.

ghost use Rattle.std.specs.Prelude.{◌≡◌, ◌∷◌, [], None, Some, IfOk, map};
ghost use Rattle.std.specs.List.{find};
ghost use Rattle.std.specs.Option.{option_copied};
ghost use Rattle.math_terms.specs.Sorts.{any, str};
ghost use Rattle.type_inst.specs.Assertions.{is_between, is_named, is_reverse, number_in};
ghost use Rattle.math_types.specs.Expressions as spec;
ghost use Rattle.math_types.specs.working.Answers.{IsAnswer};

use crate::error::SortError;
use crate::known::{Known, dotted, word};
use math_terms::{
    Binary, Name, NoMemory, Sort, Unary, sort_of_initial, sort_of_one, sort_of_part, sort_of_two,
};
use res_ast::{BinOp, Expr, Form};
use sqlite_items::{Boxed, Items};
use std::alloc::Global;

/// The sort of an expression whose names are `known`, where `types` are the type formals with their numbers; or the first of its
/// nodes, in post-order, that has none.
#[cycle(sort)]
pub(crate) fn sort_of(
    alloc: Global,
    e: &Expr,
    known: &[Known],
    types: &[(Name, u32)],
) -> Result<Sort, SortError>
    ensures { IsAnswer (spec.checked known.now types.now e.now) result }
{
    match form_sort(alloc, &e.form, known, types)? {
        Some(sort) => Ok(sort),
        None => Err(SortError::Sort { at: e.at }),
    }
}

/// The sort of a form; none where its children have sorts that do not fit.
#[cycle(sort)]
fn form_sort(
    alloc: Global,
    form: &Form,
    known: &[Known],
    types: &[(Name, u32)],
) -> Result<Option<Sort>, SortError>
    ensures { IsAnswer (spec.form_checked known.now types.now form.now) result }
{
    match form {
        Form::Int(_) | Form::MinInt | Form::MaxInt => Ok(Some(Sort::Z)),
        Form::Truth(_) => Ok(Some(Sort::B)),
        Form::Word(name) => Ok(word(alloc, known, false, name)?),
        Form::Old(name) => Ok(word(alloc, known, true, name)?),
        Form::Dot(name, part) => Ok(dotted(alloc, known, false, name, part)?),
        Form::OldDot(name, part) => Ok(dotted(alloc, known, true, name, part)?),
        Form::Call(facility, name, args) => call(alloc, facility, name, args, known, types),
        Form::Initial(name, x) => is_initial(alloc, name, x.get(), known, types),
        Form::Not(x) => one(alloc, Unary::Not, x.get(), known, types),
        Form::Minus(x) => minus(alloc, x.get(), known, types),
        Form::Binary(op, x, y) => {
            let left = sort_of(alloc, x.get(), known, types)?;
            let right = sort_of(alloc, y.get(), known, types)?;
            Ok(two_rule(alloc, binary(*op), &left, &right)?)
        }
        Form::Empty => Ok(empty(alloc)?),
        Form::Single(x) => one(alloc, Unary::Single, x.get(), known, types),
        Form::Bars(x) => one(alloc, Unary::Len, x.get(), known, types),
        Form::Tuple(parts) => product(alloc, parts, known, types),
    }
}

/// The sort of a node with this over one child.
#[cycle(sort)]
fn one(
    alloc: Global,
    head: Unary,
    x: &Expr,
    known: &[Known],
    types: &[(Name, u32)],
) -> Result<Option<Sort>, SortError>
    ensures { IsAnswer (spec.given (spec.one head) (spec.checked known.now types.now x.now)) result }
{
    let sort = sort_of(alloc, x, known, types)?;
    Ok(one_rule(alloc, head, sort)?)
}

/// The sort of a difference from 0.
#[cycle(sort)]
fn minus(
    alloc: Global,
    x: &Expr,
    known: &[Known],
    types: &[(Name, u32)],
) -> Result<Option<Sort>, SortError>
    ensures { IsAnswer (spec.given spec.minus (spec.checked known.now types.now x.now)) result }
{
    let sort = sort_of(alloc, x, known, types)?;
    Ok(two_rule(alloc, Binary::Sub, &sort, &sort)?)
}

/// The sort of a call; none where it is of an operation of a facility.
#[cycle(sort)]
fn call(
    alloc: Global,
    facility: &Option<Name>,
    name: &Name,
    args: &Items<Expr>,
    known: &[Known],
    types: &[(Name, u32)],
) -> Result<Option<Sort>, SortError>
    ensures { IsAnswer (spec.call facility.now name.now (spec.all (map (spec.checked known.now types.now) args.now))) result }
{
    let sorts = sorts_of(alloc, args.as_slice(), known, types)?;
    match facility {
        Some(_) => Ok(None),
        None => Ok(called(alloc, name, sorts)?),
    }
}

/// The sort of a tuple.
#[cycle(sort)]
fn product(
    alloc: Global,
    parts: &Items<Expr>,
    known: &[Known],
    types: &[(Name, u32)],
) -> Result<Option<Sort>, SortError>
    ensures { IsAnswer (spec.given_all spec.product (spec.all (map (spec.checked known.now types.now) parts.now))) result }
{
    let sorts = sorts_of(alloc, parts.as_slice(), known, types)?;
    Ok(Some(Sort::Tup(sorts)))
}

/// The sort of the claim that a value is initial for the type formal of this name.
#[cycle(sort)]
fn is_initial(
    alloc: Global,
    name: &Name,
    x: &Expr,
    known: &[Known],
    types: &[(Name, u32)],
) -> Result<Option<Sort>, SortError>
    ensures { IsAnswer (spec.given (spec.initial (number_in types.now name.now)) (spec.checked known.now types.now x.now)) result }
{
    let sort = sort_of(alloc, x, known, types)?;
    Ok(initial(alloc, name, types, sort)?)
}

/// The sorts of expressions, in their order.
#[cycle(sort)]
fn sorts_of(
    alloc: Global,
    exprs: &[Expr],
    known: &[Known],
    types: &[(Name, u32)],
) -> Result<Items<Sort>, SortError>
    ensures { IsAnswer (spec.all (map (spec.checked known.now types.now) exprs.now)) result }
{
    let mut sorts = Items::new(alloc);
    for e in exprs {
        let sort = sort_of(alloc, e, known, types)?;
        sorts.push(sort)?;
    }
    Ok(sorts)
}

/// What stands between two terms where this stands between two expressions; `>` and `>=` take what `<` and `<=` take.
fn binary(op: BinOp) -> Binary
    ensures { result ≡ spec.binary op }
{
    match op {
        BinOp::Add => Binary::Add,
        BinOp::Sub => Binary::Sub,
        BinOp::Mul => Binary::Mul,
        BinOp::Div => Binary::Div,
        BinOp::Mod => Binary::Mod,
        BinOp::Cat => Binary::Cat,
        BinOp::Eq | BinOp::NotEq => Binary::Eq,
        BinOp::Less | BinOp::Greater => Binary::Less,
        BinOp::LessEq | BinOp::GreaterEq => Binary::LessEq,
        BinOp::And => Binary::And,
        BinOp::Or => Binary::Or,
        BinOp::Implies => Binary::Implies,
    }
}

/// The sort of the empty string.
fn empty(alloc: Global) -> Result<Option<Sort>, NoMemory>
    ensures { IfOk result (λ o. o ≡ Some (str any)) }
{
    Ok(Some(Sort::Str(Boxed::new(alloc, Sort::Any)?)))
}

/// The sort of a call with arguments of these sorts.
#[tactic(auto, unfolding(crate::specs::Expressions::called))]
fn called(alloc: Global, name: &Name, sorts: Items<Sort>) -> Result<Option<Sort>, NoMemory>
    ensures { IfOk result (λ o. o ≡ spec.called name.now sorts) }
{
    match sorts.as_slice() {
        [s] => reversed(alloc, name, s),
        [i, j, s] => between(alloc, name, i, j, s),
        _ => Ok(None),
    }
}

/// The sort of a call with one argument.
#[tactic(auto, unfolding(crate::specs::Expressions::called))]
fn reversed(alloc: Global, name: &Name, s: &Sort) -> Result<Option<Sort>, NoMemory>
    ensures { IfOk result (λ o. o ≡ spec.called name.now (s.now ∷ [])) }
{
    if is_reverse(name) {
        Ok(one_rule(alloc, Unary::Reverse, s.copy(alloc)?)?)
    } else {
        Ok(None)
    }
}

fn one_rule(alloc: Global, head: Unary, s: Sort) -> Result<Option<Sort>, NoMemory>
    ensures { IfOk result (λ o. o ≡ spec.one head s) }
{
    sort_of_one(alloc, head, s)
}

fn two_rule(alloc: Global, node: Binary, s: &Sort, t: &Sort) -> Result<Option<Sort>, NoMemory>
    ensures { IfOk result (λ o. o ≡ spec.two node s.now t.now) }
{
    sort_of_two(alloc, node, s, t)
}

fn part_rule(i: &Sort, j: &Sort, s: Sort) -> Option<Sort>
    ensures { result ≡ spec.between i.now j.now s }
{
    sort_of_part(i, j, s)
}

/// The sort of a call with three arguments.
#[tactic(auto, unfolding(crate::specs::Expressions::called))]
fn between(
    alloc: Global,
    name: &Name,
    i: &Sort,
    j: &Sort,
    s: &Sort,
) -> Result<Option<Sort>, NoMemory>
    ensures { IfOk result (λ o. o ≡ spec.called name.now (i.now ∷ j.now ∷ s.now ∷ [])) }
{
    if is_between(name) {
        Ok(part_rule(i, j, s.copy(alloc)?))
    } else {
        Ok(None)
    }
}

/// The sort of that claim, where the value has this sort.
fn initial(
    alloc: Global,
    name: &Name,
    types: &[(Name, u32)],
    s: Sort,
) -> Result<Option<Sort>, NoMemory>
    ensures { IfOk result (λ o. o ≡ spec.initial (number_in types.now name.now) s) }
{
    match number_of(types, name) {
        Some(k) => Ok(initial_rule(alloc, k, &s)?),
        None => Ok(None),
    }
}

fn initial_rule(alloc: Global, k: u32, s: &Sort) -> Result<Option<Sort>, NoMemory>
    ensures { IfOk result (λ o. o ≡ spec.initial (Some k) s.now) }
{
    sort_of_initial(alloc, k, s)
}

/// The number of a type formal.
fn number_of(types: &[(Name, u32)], name: &Name) -> Option<u32>
    ensures { result ≡ number_in types.now name.now }
{
    match type_named(types, name) {
        Some(own) => Some(own.1),
        None => None,
    }
}

fn type_named<'t>(types: &'t [(Name, u32)], name: &Name) -> Option<&'t (Name, u32)>
    ensures { option_copied result ≡ find (is_named name.now) types.now }
{
    for own in types {
        if is_named(own, name) {
            return Some(own);
        }
    }
    None
}

fn is_named(own: &(Name, u32), name: &Name) -> bool
    ensures { result ≡ is_named name.now own.now }
{
    own.0.same(name)
}

const REVERSE: &[u8] = b"Reverse";

const BETWEEN: &[u8] = b"Prt_Btwn";

/// Whether the name is that of the function that reverses strings.
#[tactic(auto, unfolding(type_inst::specs::Assertions::is_reverse))]
fn is_reverse(name: &Name) -> bool
    ensures { result ≡ is_reverse name.now }
{
    name.bytes() == REVERSE
}

/// Whether the name is that of the function that takes entries of strings.
#[tactic(auto, unfolding(type_inst::specs::Assertions::is_between))]
fn is_between(name: &Name) -> bool
    ensures { result ≡ is_between name.now }
{
    name.bytes() == BETWEEN
}
