//! Forms of terms while they are made: their coefficients may be 0 or wide.

ghost use Rattle.std.specs.Prelude.{◌≡◌, IfOk, OnOk, map, position, [], ◌∷◌, ◌++◌};
ghost use Rattle.math_terms.specs.declared.term.Term.TheOpen.{Term-F};
ghost use Rattle.math_terms.specs.declared.term.Term.TheViews.{roll-Term};
ghost use Rattle.math_terms.specs.Heads.{same_term};
ghost use Rattle.math_terms.specs.Views.{binary_node};
ghost use Rattle.num_theory.specs.Linear as spec;
ghost use Rattle.num_theory.specs.working.Making.{form_of};

use crate::number::Number;
use crate::vectors::push;
use math_terms::{Binary, NoMemory, Term, View, boxed, same_terms_are_equal};
use std::alloc::Global;

const MINUS_ONE: Number = Number::Exact(-1);

/// A sum of products, in the order in which their atoms first occur, and a constant. It is narrow where its numbers,
/// and those of each form that it is made from, have magnitudes below 2^31.
#[derive(Drop)]
pub(crate) struct RawForm {
    pub products: Vec<(Number, Term)>,
    pub constant: Number,
    pub is_narrow: bool,
}

fn are_narrow(products: &[(Number, Term)]) -> bool
    ensures { result ≡ spec.narrow_products products.now }
{
    products.iter().all(|p| p.0.is_narrow())
}

/// Whether no product has a coefficient other than 0.
fn are_zero(products: &[(Number, Term)]) -> bool
    ensures { result ≡ spec.are_zero products.now }
{
    products.iter().all(|p| p.0.is_zero())
}

/// Whether two terms are the same.
pub(crate) fn is_same(a: &Term, b: &Term) -> bool
    ensures { result ≡ same_term a.now b.now }
{
    same_terms_are_equal();
    a.same(b)
}

/// The place of the first product with this atom.
fn place_of(atom: &Term, products: &[(Number, Term)]) -> Option<usize>
    ensures { result ≡ position (λ p. same_term atom.now p.1) products.now }
{
    products.iter().position(|p| is_same(atom, &p.1))
}

/// Adds the product to the one of the same atom, or else puts it last.
fn add_product(
    products: &mut Vec<(Number, Term)>,
    coefficient: Number,
    atom: Term,
) -> Result<(), NoMemory>
    ensures { OnOk result (products.new.items ≡ spec.add_product (coefficient, atom) products.old.items) }
{
    match place_of(&atom, products) {
        Some(k) => {
            products[k].0 = products[k].0.plus(coefficient);
            Ok(())
        }
        None => push(products, (coefficient, atom)),
    }
}

/// Adds products one after another.
fn add_products(
    products: &mut Vec<(Number, Term)>,
    more: Vec<(Number, Term)>,
) -> Result<(), NoMemory>
    ensures { OnOk result (products.new.items ≡ spec.add_products products.old.items more.items) }
{
    for (coefficient, atom) in more {
        add_product(products, coefficient, atom)?;
    }
    Ok(())
}

/// A form with these numbers, made from forms that are narrow or not.
fn made(parts: bool, products: Vec<(Number, Term)>, constant: Number) -> RawForm
    ensures { form_of result ≡ spec.made parts products.items constant }
{
    let is_narrow = parts && are_narrow(&products) && constant.is_narrow();
    RawForm {
        products,
        constant,
        is_narrow,
    }
}

fn constant_form(alloc: Global, number: i64) -> RawForm
    ensures { form_of result ≡ spec.constant_form number }
{
    made(true, Vec::new(alloc), Number::Exact(i128::from(number)))
}

fn atom_form(alloc: Global, t: &Term) -> Result<RawForm, NoMemory>
    ensures { IfOk result (λ f. form_of f ≡ spec.atom_form t.now) }
{
    let mut products = Vec::new(alloc);
    push(&mut products, (Number::Exact(1), t.copy(alloc)?))?;
    Ok(made(true, products, Number::Exact(0)))
}

fn plus(f: RawForm, g: RawForm) -> Result<RawForm, NoMemory>
    ensures { IfOk result (λ sum. form_of sum ≡ spec.plus (form_of f) (form_of g)) }
{
    let RawForm {
        mut products,
        constant,
        is_narrow,
    } = f;
    let RawForm {
        products: more,
        constant: other,
        is_narrow: is_other_narrow,
    } = g;
    add_products(&mut products, more)?;
    Ok(made(is_narrow && is_other_narrow, products, constant.plus(other)))
}

fn scale(by: Number, products: &mut [(Number, Term)])
    ensures { products.new ≡ map (spec.scaled by) products.old }
{
    for p in products.iter_mut() {
        p.0 = by.times(p.0);
    }
}

fn times(by: Number, f: RawForm) -> RawForm
    ensures { form_of result ≡ spec.times by (form_of f) }
{
    let RawForm {
        mut products,
        constant,
        is_narrow,
    } = f;
    scale(by, &mut products);
    made(is_narrow, products, by.times(constant))
}

/// The constant of the form `f` times the form `g`.
fn multiple(f: RawForm, g: RawForm) -> RawForm
    ensures { form_of result ≡ spec.multiple (form_of f) (form_of g) }
{
    let is_narrow = f.is_narrow && g.is_narrow;
    let RawForm {
        products,
        constant,
        is_narrow: _,
    } = times(f.constant, g);
    made(is_narrow, products, constant)
}

/// The form of a term.
#[cycle(form)]
pub(crate) fn raw_form(alloc: Global, t: &Term) -> Result<RawForm, NoMemory>
    ensures { IfOk result (λ f. form_of f ≡ (spec.formed t.now).1) }
{
    match t.view() {
        View::Num(number) => Ok(constant_form(alloc, number)),
        View::Two(op, a, b) => form_of_two(alloc, op, t, a, b),
        _ => atom_form(alloc, t),
    }
}

/// The form of a term `t` with this operator and these operands.
#[cycle(form)]
fn form_of_two(alloc: Global, op: Binary, t: &Term, a: &Term, b: &Term) -> Result<RawForm, NoMemory>
    ensures { t.now ≡ roll-Term (binary_node op a.now b.now) → IfOk result (λ f. form_of f ≡ (spec.formed t.now).1) }
{
    match op {
        Binary::Add => sum_form(alloc, a, b),
        Binary::Sub => difference_form(alloc, a, b),
        Binary::Mul => product_form(alloc, t, a, b),
        Binary::Mod => remainder_form(alloc, t, a, b),
        _ => atom_form(alloc, t),
    }
}

#[cycle(form)]
fn sum_form(alloc: Global, a: &Term, b: &Term) -> Result<RawForm, NoMemory>
    ensures { IfOk result (λ f. form_of f ≡ spec.plus (spec.formed a.now).1 (spec.formed b.now).1) }
{
    plus(raw_form(alloc, a)?, raw_form(alloc, b)?)
}

/// The form of the first term minus the second.
#[cycle(form)]
pub(crate) fn difference_form(alloc: Global, a: &Term, b: &Term) -> Result<RawForm, NoMemory>
    ensures { IfOk result (λ f. form_of f ≡ spec.plus (spec.formed a.now).1 (spec.times spec.minus_one (spec.formed b.now).1)) }
{
    plus(raw_form(alloc, a)?, times(MINUS_ONE, raw_form(alloc, b)?))
}

/// The form of a product `t` of two terms.
#[cycle(form)]
fn product_form(alloc: Global, t: &Term, a: &Term, b: &Term) -> Result<RawForm, NoMemory>
    ensures { t.now ≡ roll-Term (Term-F.Mul a.now b.now) → IfOk result (λ f. form_of f ≡ spec.product_form (spec.formed a.now) (spec.formed b.now)) }
{
    let f = raw_form(alloc, a)?;
    let g = raw_form(alloc, b)?;
    if are_zero(&g.products) {
        Ok(multiple(g, f))
    } else if are_zero(&f.products) {
        Ok(multiple(f, g))
    } else {
        atom_form(alloc, t)
    }
}

/// The form of the remainder `t` of two terms.
#[cycle(form)]
fn remainder_form(alloc: Global, t: &Term, a: &Term, b: &Term) -> Result<RawForm, NoMemory>
    ensures { t.now ≡ roll-Term (Term-F.Mod a.now b.now) → IfOk result (λ f. form_of f ≡ spec.remainder_form (spec.formed a.now) (spec.formed b.now)) }
{
    match b.view() {
        View::Num(number) => remainder_by(alloc, t, a, b, number),
        _ => atom_form(alloc, t),
    }
}

/// The form of the remainder `t` of a term by a number `b`.
#[cycle(form)]
fn remainder_by(
    alloc: Global,
    t: &Term,
    a: &Term,
    b: &Term,
    number: i64,
) -> Result<RawForm, NoMemory>
    ensures { t.now ≡ roll-Term (Term-F.Mod a.now b.now) → b.now ≡ roll-Term (Term-F.Num number) → IfOk result (λ f. form_of f ≡ spec.remainder_by (spec.formed a.now) (spec.formed b.now) number) }
{
    if number <= 0 {
        return atom_form(alloc, t);
    }
    let quotient = quotient_form(alloc, a, b)?;
    let rounded = multiple(times(MINUS_ONE, constant_form(alloc, number)), quotient);
    plus(raw_form(alloc, a)?, rounded)
}

/// The quotient of two terms as an atom.
fn quotient_form(alloc: Global, a: &Term, b: &Term) -> Result<RawForm, NoMemory>
    ensures { IfOk result (λ f. form_of f ≡ spec.atom_form (roll-Term (Term-F.Div a.now b.now))) }
{
    let quotient = Term::Div(boxed(alloc, a.copy(alloc)?)?, boxed(alloc, b.copy(alloc)?)?);
    atom_form(alloc, &quotient)
}
