//! The linear forms of terms.

ghost use Rattle.std.specs.Prelude.{◌≡◌, ◌+ℤ◌, IfOk, IfSome, IsTrue, OnOk, map, position, if◌then◌else◌};
ghost use Rattle.std.specs.List.{position_or_len};
ghost use Rattle.math_terms.specs.declared.term.Term.TheOpen.{Term-F};
ghost use Rattle.math_terms.specs.declared.term.Term.TheViews.{roll-Term};
ghost use Rattle.math_terms.specs.Descriptors.{Interpretation, value};
ghost use Rattle.math_terms.specs.Meaning.{Valuation};
ghost use Rattle.math_terms.specs.Values.{number};
ghost use Rattle.num_theory.specs.Laws.{sum_of_products};
ghost use Rattle.num_theory.specs.Linear as spec;
ghost use Rattle.num_theory.specs.Number.{exact, is_narrow, is_zero};
ghost use Rattle.num_theory.specs.Shown.{linear_shown};
ghost use Rattle.num_theory.specs.working.Making.{IsWellMade, form_of, text_of_product};

use crate::forms::{RawForm, difference_form, raw_form};
use crate::number::Number;
use crate::table::LinearForm;
use crate::texts::{stands_before, text_of};
use crate::vectors::insert;
use math_terms::{Items, NoMemory, Term, same_terms_are_equal};
use std::alloc::Global;

/// The term's linear form. There is none where one of its numbers, or of those of a form that it is made from, has
/// magnitude 2^31 or more.
pub fn linear(alloc: Global, t: &Term) -> Result<Option<LinearForm>, NoMemory>
    ensures exact { IfOk result (λ form. linear_shown form ≡ spec.linear_of t.now) }
    ensures value { IfOk result (λ form. IfSome form (λ f. (I : Interpretation) (w : Valuation) → number (value I w t.now) ≡ sum_of_products I w f.products +ℤ f.constant)) }
{
    same_terms_are_equal();
    shown_form(alloc, raw_form(alloc, t)?)
}

/// The linear form of the first term minus the second.
pub(crate) fn linear_difference(
    alloc: Global,
    a: &Term,
    b: &Term,
) -> Result<Option<LinearForm>, NoMemory>
    ensures { IfOk result (λ form. linear_shown form ≡ spec.linear_of (roll-Term (Term-F.Sub a.now b.now))) }
{
    shown_form(alloc, difference_form(alloc, a, b)?)
}

/// The form as it is shown, where it is narrow.
fn shown_form(alloc: Global, form: RawForm) -> Result<Option<LinearForm>, NoMemory>
    requires { IsWellMade (form_of form) }
    ensures { IfOk result (λ shown. linear_shown shown ≡ spec.shown_form (form_of form)) }
{
    if !form.is_narrow {
        return Ok(None);
    }
    let products = in_text_order(alloc, form.products)?;
    Ok(Some(LinearForm {
        products,
        constant: form.constant.exact(),
    }))
}

/// The products with coefficients other than 0, in the order of their atoms' texts.
fn in_text_order(
    alloc: Global,
    mut products: Vec<(Number, Term)>,
) -> Result<Items<(i32, Term)>, NoMemory>
    requires { IsTrue (spec.narrow_products products.items) }
    ensures { IfOk result (λ shown. shown ≡ spec.shown products.items) }
{
    let mut ordered = Vec::new(alloc);
    let mut texts = Vec::new(alloc);
    while let Some((coefficient, atom)) = products.pop() {
        place(alloc, coefficient, atom, &mut ordered, &mut texts)?;
    }
    Ok(Items::from_vec(ordered))
}

/// Puts a product in its place, unless its coefficient is 0.
fn place(
    alloc: Global,
    coefficient: Number,
    atom: Term,
    ordered: &mut Vec<(i32, Term)>,
    texts: &mut Vec<Items<u8>>,
) -> Result<(), NoMemory>
    requires small { IsTrue (is_narrow coefficient) }
    requires same { texts.old.items ≡ map text_of_product ordered.old.items }
    ensures placed { OnOk result (ordered.new.items ≡ (if is_zero coefficient then ordered.old.items else spec.insert_product (exact coefficient, atom) ordered.old.items)) }
    ensures same { OnOk result (texts.new.items ≡ map text_of_product ordered.new.items) }
{
    if coefficient.is_zero() {
        return Ok(());
    }
    let text = Items::from_vec(text_of(alloc, &atom)?);
    let at = place_of(text.as_slice(), texts);
    insert(texts, at, text)?;
    insert(ordered, at, (coefficient.exact(), atom))
}

/// The place of the first text that this one stands before, or after the last where there is none.
fn place_of(text: &[u8], texts: &[Items<u8>]) -> usize
    ensures { result ≡ position_or_len (spec.text_before text.now) texts.now }
{
    match first_after(text, texts) {
        Some(at) => at,
        None => texts.len(),
    }
}

fn first_after(text: &[u8], texts: &[Items<u8>]) -> Option<usize>
    ensures { result ≡ position (spec.text_before text.now) texts.now }
{
    texts
        .iter()
        .position(|other| stands_before(text, other.as_slice()))
}
