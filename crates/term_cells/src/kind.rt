//! Of which kind the terms at places are.

ghost use Rattle.std.specs.Prelude.{◌≡◌, ◌↔◌, ℕ, ◌<◌, pos, List, IfSome, IsTrue, Some, map, slice_get, true};
ghost use Rattle.math_terms.specs.declared.term.Term.{Term};
ghost use Rattle.math_terms.specs.declared.descriptor.Sort.TheViews.{out-Sort};
ghost use Rattle.math_terms.specs.Forms.{form_number};
ghost use Rattle.math_terms.specs.Kinds.{forget_option, kind, or_any, sort_of_desc};
ghost use Rattle.math_terms.specs.Sorts.{z, b, is_str, part_form, sort_of_var};
ghost use Rattle.term_cells.specs.KindShown.{PartAt, PartsBelow, Shows, ShowsIn, is_number_form, is_truth_form, kind_of_desc, sorts_of_vars};
ghost use Rattle.term_cells.specs.Standing.{parts_stand, stands, stands_below};

use crate::cells::Cells;
use math_terms::{Desc, Form, Name, Shape};

/// A kind: that of numbers, of truth values, of strings, of tuples, by the place of the parts or by their descriptors, or any other.
#[derive(Clone, Copy)]
pub(crate) enum Kind<'a> {
    Number,
    Truth,
    Text,
    Parts(u32),
    Descs(&'a [Desc]),
    Other,
}

impl Cells {
    /// Whether the term at this place is of the kind of numbers, where these are the variables of the sequent. This takes no memory.
    pub fn is_number(&self, p: u32, vars: &[(Name, Desc)]) -> bool
        ensures { (t : Term) → stands self.now.0 t p ≡ true → (IsTrue result ↔ (kind (map (λ v. sort_of_desc v.1) vars.now) t ≡ z)) }
    {
        match self.kind_of(p, vars) {
            Kind::Number => true,
            _ => false,
        }
    }

    /// Whether it is of the kind of truth values.
    pub fn is_truth(&self, p: u32, vars: &[(Name, Desc)]) -> bool
        ensures { (t : Term) → stands self.now.0 t p ≡ true → (IsTrue result ↔ (kind (map (λ v. sort_of_desc v.1) vars.now) t ≡ b)) }
    {
        match self.kind_of(p, vars) {
            Kind::Truth => true,
            _ => false,
        }
    }

    /// Whether it is of the kind of strings.
    pub fn is_string(&self, p: u32, vars: &[(Name, Desc)]) -> bool
        ensures { (t : Term) → stands self.now.0 t p ≡ true → result ≡ is_str (kind (sorts_of_vars vars.now) t) }
    {
        match self.kind_of(p, vars) {
            Kind::Text => true,
            _ => false,
        }
    }

    /// The kind of the term at this place.
    #[cycle(kind)]
    fn kind_of<'a>(&self, p: u32, vars: &'a [(Name, Desc)]) -> Kind<'a>
        ensures below { PartsBelow p result }
        ensures shown { (t : Term) → stands self.now.0 t p ≡ true → Shows self.now.0 (sorts_of_vars vars.now) result (kind (sorts_of_vars vars.now) t) }
    {
        let Some(cell) = self.at(p) else {
            return Kind::Other;
        };
        let Some(form) = cell.node_form() else {
            return Kind::Other;
        };
        if is_number_form(form) {
            return Kind::Number;
        }
        if is_truth_form(form) {
            return Kind::Truth;
        }
        if cell.is(Form::Tuple) {
            return if cell.a < p {
                Kind::Parts(cell.a)
            } else {
                Kind::Other
            };
        }
        if cell.is(Form::Var) {
            return kind_of_var(cell.own, vars);
        }
        if cell.is(Form::Proj) {
            return self.kind_of_part(p, cell.a, cell.own, vars);
        }
        Kind::Text
    }

    /// The kind of part k, counted from 0, of the term at place p, which is below a limit.
    #[cycle(kind)]
    fn kind_of_part<'a>(&self, limit: u32, p: u32, k: i64, vars: &'a [(Name, Desc)]) -> Kind<'a>
        ensures below { PartsBelow limit result }
        ensures shown { (n : ℕ) (t : Term) → k ≡ pos n → stands_below (stands self.now.0 t) p limit ≡ true → Shows self.now.0 (sorts_of_vars vars.now) result (or_any (part_form n (out-Sort (kind (sorts_of_vars vars.now) t)))) }
    {
        if p >= limit {
            return Kind::Other;
        }
        let Some(k) = natural(k) else {
            return Kind::Other;
        };
        match self.kind_of(p, vars) {
            Kind::Parts(list) => match self.part(list, k) {
                Some(q) => self.kind_of(q, vars),
                None => Kind::Other,
            },
            Kind::Descs(descs) => kind_among(descs, k),
            _ => Kind::Other,
        }
    }

    /// The place of part k of a list, counted from 0.
    fn part(&self, list: u32, k: u64) -> Option<u32>
        ensures below { IfSome result (λ at. at < list) }
        ensures part { (limit : ℕ) (ts : List Term) → parts_stand self.now.0 (map (stands self.now.0) ts) list limit ≡ true → PartAt self.now.0 ts k result }
    {
        let cell = self.at(list)?;
        if !cell.is_link() {
            return None;
        }
        if cell.a >= list || cell.b >= list {
            return None;
        }
        if k == 0 {
            return Some(cell.a);
        }
        self.part(cell.b, k - 1)
    }
}

/// A number that is not negative.
fn natural(own: i64) -> Option<u64>
    ensures { (n : ℕ) → own ≡ pos n → result ≡ Some n }
{
    if own < 0 { None } else { Some(own as u64) }
}

/// The kind of variable k, counted from 1.
fn kind_of_var(k: i64, vars: &[(Name, Desc)]) -> Kind<'_>
    ensures below { (p : ℕ) → PartsBelow p result }
    ensures shown { (n : ℕ) → k ≡ pos n → ShowsIn result (forget_option (sort_of_var (sorts_of_vars vars.now) n)) }
{
    let Some(k) = natural(k) else {
        return Kind::Other;
    };
    if k == 0 {
        return Kind::Other;
    }
    kind_of_entry(vars, k - 1)
}

/// The kind of the variable at a place of the list, counted from 0.
fn kind_of_entry(vars: &[(Name, Desc)], k: u64) -> Kind<'_>
    ensures { ShowsIn result (forget_option (slice_get (sorts_of_vars vars.now) k)) }
{
    match vars.get(k as usize) {
        Some(v) => kind_in(&v.1),
        None => Kind::Other,
    }
}

/// The kind of what lies in descriptor k, counted from 0.
fn kind_among(descs: &[Desc], k: u64) -> Kind<'_>
    ensures { ShowsIn result (or_any (slice_get (map kind_of_desc descs.now) k)) }
{
    match descs.get(k as usize) {
        Some(d) => kind_in(d),
        None => Kind::Other,
    }
}

/// The kind of what lies in a descriptor.
fn kind_in(d: &Desc) -> Kind<'_>
    ensures { ShowsIn result (kind_of_desc d.now) }
{
    match &d.shape {
        Shape::Z => Kind::Number,
        Shape::B => Kind::Truth,
        Shape::Tup(parts) => Kind::Descs(parts.as_slice()),
        Shape::Str(_) => Kind::Text,
        Shape::Param(_) => Kind::Other,
    }
}

fn is_number_form(form: Form) -> bool
    ensures { result ≡ is_number_form (form_number form) }
{
    match form {
        Form::Num | Form::MinInt | Form::MaxInt | Form::Len => true,
        Form::Add | Form::Sub | Form::Mul | Form::Div | Form::Mod => true,
        _ => false,
    }
}

fn is_truth_form(form: Form) -> bool
    ensures { result ≡ is_truth_form (form_number form) }
{
    match form {
        Form::Truth | Form::Eq | Form::Less | Form::LessEq | Form::Initial => true,
        Form::Not | Form::And | Form::Or | Form::Implies => true,
        _ => false,
    }
}
