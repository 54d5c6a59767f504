//! What sort a node has whose children have these sorts: the rule of each form, for a walk over any tree of such nodes.

ghost use Rattle.std.specs.Option.{option_copied};
ghost use Rattle.std.specs.Prelude.{◌≡◌, IfOk, List, slice_get, if◌then◌else◌};
ghost use Rattle.math_terms.specs.declared.descriptor.Sort.{Sort};
ghost use Rattle.math_terms.specs.declared.term.Term.TheOpen.{Term-F};
ghost use Rattle.math_terms.specs.Sorts.{as_b, b as truth_sort, given_two, is_b, is_z, sort_of_var, sort_step};
ghost use Rattle.math_terms.specs.Views.{binary_node, unary_node};

use crate::descriptor::Sort;
use crate::meeting::{meet, string_of};
use crate::name::NoMemory;
use crate::view::{Binary, Unary};
use sqlite_items::Items;
use std::alloc::Global;

/// The sort of a variable, those of `vars` numbered from 1.
pub(crate) fn variable(k: u32, vars: &[Sort]) -> Option<&Sort>
    ensures { option_copied result ≡ sort_of_var vars.now k }
{
    if k == 0 {
        return None;
    }
    vars.get(k as usize - 1)
}

/// The sort of a variable, a copy, those of `vars` numbered from 1; none for 0 and for a number beyond them.
pub fn sort_of_variable(alloc: Global, k: u32, vars: &[Sort]) -> Result<Option<Sort>, NoMemory>
    ensures { IfOk result (λ o. o ≡ sort_of_var vars.now k) }
{
    match variable(k, vars) {
        Some(s) => Ok(Some(s.copy(alloc)?)),
        None => Ok(None),
    }
}

/// The sort of a node with this over one child; none where the child's sort does not fit.
pub fn sort_of_one(alloc: Global, op: Unary, a: Sort) -> Result<Option<Sort>, NoMemory>
    ensures { (vars : List Sort) → IfOk result (λ o. o ≡ sort_step vars (unary_node op (Some a))) }
{
    match op {
        Unary::Len => Ok(only(a.is_string(), Sort::Z)),
        Unary::Single => string_of(alloc, Some(a)),
        Unary::Reverse => {
            let is_string = a.is_string();
            Ok(only(is_string, a))
        }
        Unary::Not => Ok(only(a.is_truth(), Sort::B)),
    }
}

/// The sort of a node with this between two children; none where their sorts do not fit.
pub fn sort_of_two(alloc: Global, op: Binary, a: &Sort, b: &Sort) -> Result<Option<Sort>, NoMemory>
    ensures { (vars : List Sort) → IfOk result (λ o. o ≡ sort_step vars (binary_node op (Some a.now) (Some b.now))) }
{
    match op {
        Binary::Add | Binary::Sub | Binary::Mul | Binary::Div | Binary::Mod => {
            Ok(two_numbers(a, b, Sort::Z))
        }
        Binary::Less | Binary::LessEq => Ok(two_numbers(a, b, Sort::B)),
        Binary::And | Binary::Or | Binary::Implies => Ok(two_truths(a, b)),
        Binary::Cat => {
            if a.is_string() && b.is_string() {
                meet(alloc, a, b)
            } else {
                Ok(None)
            }
        }
        Binary::Eq => Ok(truth_of_some(meet(alloc, a, b)?)),
    }
}

/// The sort of the entries from i on and before j of a string; none where the children's sorts do not fit.
pub fn sort_of_part(i: &Sort, j: &Sort, a: Sort) -> Option<Sort>
    ensures { (vars : List Sort) → result ≡ sort_step vars (Term-F.Part (Some i.now) (Some j.now) (Some a)) }
{
    let is_string = a.is_string();
    only(i.is_number() && j.is_number() && is_string, a)
}

/// The sort of part k, counted from 0, of a product; none where the child is no product or has no such part.
pub fn sort_of_projection(k: u32, a: Sort) -> Option<Sort>
    ensures { (vars : List Sort) → result ≡ sort_step vars (Term-F.Proj k (Some a)) }
{
    match a {
        Sort::Tup(parts) => taken(parts, k as usize),
        _ => None,
    }
}

/// The sort of the node that says that a value is initial for type formal k; none where the child is not of that type.
pub fn sort_of_initial(alloc: Global, k: u32, a: &Sort) -> Result<Option<Sort>, NoMemory>
    ensures { (vars : List Sort) → IfOk result (λ o. o ≡ sort_step vars (Term-F.Initial k (Some a.now))) }
{
    Ok(truth_of_some(meet(alloc, a, &Sort::Param(k))?))
}

/// The sort at this place.
fn taken(sorts: Items<Sort>, at: usize) -> Option<Sort>
    ensures { result ≡ slice_get sorts at }
{
    let mut sorts = sorts;
    if at < sorts.len() {
        Some(sorts.remove(at))
    } else {
        None
    }
}

/// The sort where the test has passed.
fn only(passed: bool, s: Sort) -> Option<Sort>
    ensures { result ≡ (if passed then Some s else None) }
{
    if passed { Some(s) } else { None }
}

/// The sort where both are numbers.
fn two_numbers(a: &Sort, b: &Sort, s: Sort) -> Option<Sort>
    ensures { result ≡ given_two is_z s (Some a.now) (Some b.now) }
{
    only(a.is_number() && b.is_number(), s)
}

/// The sort of truth values where both are.
fn two_truths(a: &Sort, b: &Sort) -> Option<Sort>
    ensures { result ≡ given_two is_b truth_sort (Some a.now) (Some b.now) }
{
    only(a.is_truth() && b.is_truth(), Sort::B)
}

/// The sort of truth values where there is a sort.
fn truth_of_some(s: Option<Sort>) -> Option<Sort>
    ensures { result ≡ as_b s }
{
    match s {
        Some(_) => Some(Sort::B),
        None => None,
    }
}
