//! The kinds of terms, in which what strings hold is forgotten.

ghost use Rattle.std.specs.Prelude.{◌≡◌, IfOk, List, map};
ghost use Rattle.math_terms.specs.declared.descriptor.Sort.{Sort};
ghost use Rattle.math_terms.specs.declared.descriptor.Sort.TheViews.{out-Sort};
ghost use Rattle.math_terms.specs.Kinds.{forget_option, kind, kind_step, or_any};
ghost use Rattle.math_terms.specs.Sorts.{part_form, sort_of_var};
ghost use Rattle.math_terms.specs.Views.{binary_node, unary_node};

use crate::descriptor::{Sort, string_kind};
use crate::name::NoMemory;
use crate::sort_rules::{sort_of_projection, variable};
use crate::term::Term;
use crate::view::{Binary, Unary, View};
use sqlite_items::Items;
use std::alloc::Global;

/// The kind that a term's head gives, for variables with the sorts of `vars`, numbered from 1: a sort whose strings
/// hold `Any`. It is `Any` where neither the head nor a variable's sort says more.
#[cycle(kind)]
pub fn kind_of(alloc: Global, t: &Term, vars: &[Sort]) -> Result<Sort, NoMemory>
    ensures { IfOk result (λ s. s ≡ kind vars.now t.now) }
{
    match t.view() {
        View::Num(_) | View::MinInt | View::MaxInt => Ok(Sort::Z),
        View::Truth(_) | View::Initial(_, _) => Ok(Sort::B),
        View::Var(k) => kind_of_variable(alloc, k, vars),
        View::Empty | View::Part(_, _, _) => string_kind(alloc),
        View::One(op, _) => kind_of_one(alloc, op),
        View::Two(op, _, _) => kind_of_two(alloc, op),
        View::Tuple(parts) => Ok(Sort::Tup(kinds_of(alloc, parts, vars)?)),
        View::Proj(k, a) => Ok(part_kind(k, kind_of(alloc, a, vars)?)),
    }
}

#[cycle(kind)]
fn kinds_of(alloc: Global, parts: &[Term], vars: &[Sort]) -> Result<Items<Sort>, NoMemory>
    ensures { IfOk result (λ ss. ss ≡ map (kind vars.now) parts.now) }
{
    let mut out = Items::new(alloc);
    for t in parts {
        out.push(kind_of(alloc, t, vars)?)?;
    }
    Ok(out)
}

/// The kind of a node with one child.
fn kind_of_one(alloc: Global, op: Unary) -> Result<Sort, NoMemory>
    ensures { (vars : List Sort) (a : Sort) → IfOk result (λ s. s ≡ kind_step vars (unary_node op a)) }
{
    match op {
        Unary::Len => Ok(Sort::Z),
        Unary::Single | Unary::Reverse => string_kind(alloc),
        Unary::Not => Ok(Sort::B),
    }
}

/// The kind of a node with two children.
fn kind_of_two(alloc: Global, op: Binary) -> Result<Sort, NoMemory>
    ensures { (vars : List Sort) (a b : Sort) → IfOk result (λ s. s ≡ kind_step vars (binary_node op a b)) }
{
    match op {
        Binary::Add | Binary::Sub | Binary::Mul | Binary::Div | Binary::Mod => Ok(Sort::Z),
        Binary::Cat => string_kind(alloc),
        Binary::Eq | Binary::Less | Binary::LessEq | Binary::And | Binary::Or | Binary::Implies =>
            Ok(Sort::B),
    }
}

fn kind_of_variable(alloc: Global, k: u32, vars: &[Sort]) -> Result<Sort, NoMemory>
    ensures { IfOk result (λ s. s ≡ forget_option (sort_of_var vars.now k)) }
{
    match variable(k, vars) {
        Some(s) => s.kind(alloc),
        None => Ok(Sort::Any),
    }
}

/// The kind of part k.
fn part_kind(k: u32, whole: Sort) -> Sort
    ensures { result ≡ or_any (part_form k (out-Sort whole)) }
{
    match sort_of_projection(k, whole) {
        Some(s) => s,
        None => Sort::Any,
    }
}
