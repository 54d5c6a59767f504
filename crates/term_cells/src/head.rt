//! The head of a term: its form, its own number and its children.

ghost use Rattle.std.specs.Prelude.{◌≡◌, ◌==◌, pos, true, false, [], ◌∷◌};
ghost use Rattle.math_terms.specs.declared.term.Term.TheViews.{out-Term};
ghost use Rattle.math_terms.specs.Forms.{form, form_number};
ghost use Rattle.math_terms.specs.Heads.{own, children};
ghost use Rattle.term_cells.specs.Standing.{tuple_form};
ghost use Rattle.term_cells.specs.working.Listed.{listed, is_parts};

use math_terms::{Form, Term};

/// The children of a term from the left. A tuple's are a slice.
#[derive(Clone, Copy)]
pub(crate) enum Children<'a> {
    None,
    One(&'a Term),
    Two(&'a Term, &'a Term),
    Three(&'a Term, &'a Term, &'a Term),
    Parts(&'a [Term]),
}

/// A term's form, its own number, 0 where it has none, and its children.
#[derive(Clone, Copy)]
pub(crate) struct Head<'a> {
    pub form: Form,
    pub own: i64,
    pub children: Children<'a>,
}

/// The head of a term.
pub(crate) fn head_of(t: &Term) -> Head<'_>
    ensures form { result.form ≡ form (out-Term t.now) }
    ensures own { result.own ≡ own (out-Term t.now) }
    ensures children { listed result.children ≡ children (out-Term t.now) }
    ensures parts { is_parts result.children ≡ (form_number (form (out-Term t.now)) == tuple_form) }
{
    match t {
        Term::Num(n) => leaf(Form::Num, *n),
        Term::Truth(b) => leaf(Form::Truth, if *b { 1 } else { 0 }),
        Term::MinInt => leaf(Form::MinInt, 0),
        Term::MaxInt => leaf(Form::MaxInt, 0),
        Term::Var(k) => leaf(Form::Var, i64::from(*k)),
        Term::Add(a, b) => two(Form::Add, a.get(), b.get()),
        Term::Sub(a, b) => two(Form::Sub, a.get(), b.get()),
        Term::Mul(a, b) => two(Form::Mul, a.get(), b.get()),
        Term::Div(a, b) => two(Form::Div, a.get(), b.get()),
        Term::Mod(a, b) => two(Form::Mod, a.get(), b.get()),
        Term::Len(a) => one(Form::Len, 0, a.get()),
        Term::Empty => leaf(Form::Empty, 0),
        Term::Single(a) => one(Form::Single, 0, a.get()),
        Term::Cat(a, b) => two(Form::Cat, a.get(), b.get()),
        Term::Reverse(a) => one(Form::Reverse, 0, a.get()),
        Term::Part(i, j, a) => three(Form::Part, i.get(), j.get(), a.get()),
        Term::Tuple(parts) => tuple(Form::Tuple, parts.as_slice()),
        Term::Proj(k, a) => one(Form::Proj, i64::from(*k), a.get()),
        Term::Eq(a, b) => two(Form::Eq, a.get(), b.get()),
        Term::Less(a, b) => two(Form::Less, a.get(), b.get()),
        Term::LessEq(a, b) => two(Form::LessEq, a.get(), b.get()),
        Term::Not(a) => one(Form::Not, 0, a.get()),
        Term::And(a, b) => two(Form::And, a.get(), b.get()),
        Term::Or(a, b) => two(Form::Or, a.get(), b.get()),
        Term::Implies(a, b) => two(Form::Implies, a.get(), b.get()),
        Term::Initial(k, a) => one(Form::Initial, i64::from(*k), a.get()),
    }
}

fn leaf<'a>(form: Form, own: i64) -> Head<'a>
    ensures form { result.form ≡ form }
    ensures own { result.own ≡ own }
    ensures children { listed result.children ≡ [] }
    ensures parts { is_parts result.children ≡ false }
{
    Head {
        form,
        own,
        children: Children::None,
    }
}

fn one(form: Form, own: i64, a: &Term) -> Head<'_>
    ensures form { result.form ≡ form }
    ensures own { result.own ≡ own }
    ensures children { listed result.children ≡ a.now ∷ [] }
    ensures parts { is_parts result.children ≡ false }
{
    Head {
        form,
        own,
        children: Children::One(a),
    }
}

fn two<'a>(form: Form, a: &'a Term, b: &'a Term) -> Head<'a>
    ensures form { result.form ≡ form }
    ensures own { result.own ≡ pos 0 }
    ensures children { listed result.children ≡ a.now ∷ b.now ∷ [] }
    ensures parts { is_parts result.children ≡ false }
{
    Head {
        form,
        own: 0,
        children: Children::Two(a, b),
    }
}

fn three<'a>(form: Form, a: &'a Term, b: &'a Term, c: &'a Term) -> Head<'a>
    ensures form { result.form ≡ form }
    ensures own { result.own ≡ pos 0 }
    ensures children { listed result.children ≡ a.now ∷ b.now ∷ c.now ∷ [] }
    ensures parts { is_parts result.children ≡ false }
{
    Head {
        form,
        own: 0,
        children: Children::Three(a, b, c),
    }
}

fn tuple(form: Form, parts: &[Term]) -> Head<'_>
    ensures form { result.form ≡ form }
    ensures own { result.own ≡ pos 0 }
    ensures children { listed result.children ≡ parts.now }
    ensures parts { is_parts result.children ≡ true }
{
    Head {
        form,
        own: 0,
        children: Children::Parts(parts),
    }
}
