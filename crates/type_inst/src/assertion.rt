//! Assertions as terms, where each name means what a list says of it.

ghost use Rattle.std.specs.Prelude.{◌≡◌, ◌∷◌, [], IfOk, map};
ghost use Rattle.std.specs.List.{find};
ghost use Rattle.std.specs.Option.{option_copied, option_map};
ghost use Rattle.type_inst.specs.Assertions as spec;

use math_terms::{Name, NoMemory, Term, both, boxed};
use res_ast::{BinOp, Expr, Form};
use sqlite_items::{Boxed, Items};
use std::alloc::Global;

const REVERSE: &[u8] = b"Reverse";

const BETWEEN: &[u8] = b"Prt_Btwn";

/// What a name means where it is written so: with `#` before it or not, and with this part behind a point or with none.
#[derive(Drop)]
pub struct Meaning {
    pub old: bool,
    pub name: Name,
    pub part: Option<Name>,
    pub term: Term,
}

/// The term of an assertion: each name means what the first of `meanings` that is written so says of it, and `types` gives
/// type formals their numbers. What has no meaning is the number 0, as is a call of an operation.
#[cycle(term)]
pub fn term_of(
    alloc: Global,
    e: &Expr,
    meanings: &[Meaning],
    types: &[(Name, u32)],
) -> Result<Term, NoMemory>
    ensures { IfOk result (λ t. t ≡ spec.assertion (spec.names_in meanings.now types.now) e.now) }
{
    form_term(alloc, &e.form, meanings, types)
}

#[cycle(term)]
fn form_term(
    alloc: Global,
    form: &Form,
    meanings: &[Meaning],
    types: &[(Name, u32)],
) -> Result<Term, NoMemory>
    ensures { IfOk result (λ t. t ≡ spec.form_assertion (spec.names_in meanings.now types.now) form.now) }
{
    match form {
        Form::Int(n) => Ok(Term::Num(*n)),
        Form::Truth(b) => Ok(Term::Truth(*b)),
        Form::MinInt => Ok(Term::MinInt),
        Form::MaxInt => Ok(Term::MaxInt),
        Form::Word(name) => word(alloc, meanings, false, name),
        Form::Old(name) => word(alloc, meanings, true, name),
        Form::Dot(name, part) => dotted(alloc, meanings, false, name, part),
        Form::OldDot(name, part) => dotted(alloc, meanings, true, name, part),
        Form::Call(None, name, args) => call(alloc, name, args.as_slice(), meanings, types),
        Form::Call(Some(_), _, _) => Ok(Term::Num(0)),
        Form::Initial(name, x) => initial(alloc, name, x.get(), meanings, types),
        Form::Not(x) => Ok(Term::Not(boxed_term(alloc, x.get(), meanings, types)?)),
        Form::Minus(x) => {
            let zero = boxed(alloc, Term::Num(0));
            let (zero, x) = both(zero, boxed_term(alloc, x.get(), meanings, types))?;
            Ok(Term::Sub(zero, x))
        }
        Form::Binary(op, x, y) => {
            let (x, y) = both(
                boxed_term(alloc, x.get(), meanings, types),
                boxed_term(alloc, y.get(), meanings, types),
            )?;
            binary(alloc, *op, x, y)
        }
        Form::Empty => Ok(Term::Empty),
        Form::Single(x) => Ok(Term::Single(boxed_term(alloc, x.get(), meanings, types)?)),
        Form::Bars(x) => Ok(Term::Len(boxed_term(alloc, x.get(), meanings, types)?)),
        Form::Tuple(parts) => {
            Ok(Term::Tuple(terms_of(alloc, parts.as_slice(), meanings, types)?))
        }
    }
}

#[cycle(term)]
fn boxed_term(
    alloc: Global,
    e: &Expr,
    meanings: &[Meaning],
    types: &[(Name, u32)],
) -> Result<Boxed<Term>, NoMemory>
    ensures { IfOk result (λ t. t ≡ spec.assertion (spec.names_in meanings.now types.now) e.now) }
{
    boxed(alloc, term_of(alloc, e, meanings, types)?)
}

#[cycle(term)]
fn terms_of(
    alloc: Global,
    exprs: &[Expr],
    meanings: &[Meaning],
    types: &[(Name, u32)],
) -> Result<Items<Term>, NoMemory>
    ensures { IfOk result (λ ts. ts ≡ map (spec.assertion (spec.names_in meanings.now types.now)) exprs.now) }
{
    let mut out = Items::new(alloc);
    for e in exprs {
        out.push(term_of(alloc, e, meanings, types)?)?;
    }
    Ok(out)
}

/// A call by its name alone.
#[cycle(term)]
fn call(
    alloc: Global,
    name: &Name,
    args: &[Expr],
    meanings: &[Meaning],
    types: &[(Name, u32)],
) -> Result<Term, NoMemory>
    ensures { IfOk result (λ t. t ≡ spec.call name.now (map (spec.assertion (spec.names_in meanings.now types.now)) args.now)) }
{
    if args.len() == 1 {
        let s = boxed_term(alloc, &args[0], meanings, types)?;
        Ok(reversed(name, s))
    } else if args.len() == 3 {
        let ends = both(
            boxed_term(alloc, &args[0], meanings, types),
            boxed_term(alloc, &args[1], meanings, types),
        );
        let ((i, j), s) = both(ends, boxed_term(alloc, &args[2], meanings, types))?;
        Ok(between(name, i, j, s))
    } else {
        Ok(Term::Num(0))
    }
}

/// That a value is initial for a type.
#[cycle(term)]
fn initial(
    alloc: Global,
    name: &Name,
    x: &Expr,
    meanings: &[Meaning],
    types: &[(Name, u32)],
) -> Result<Term, NoMemory>
    ensures { IfOk result (λ t. t ≡ spec.initial (spec.number_in types.now name.now) (spec.assertion (spec.names_in meanings.now types.now) x.now)) }
{
    match number_of(types, name) {
        Some(k) => Ok(Term::Initial(k, boxed_term(alloc, x, meanings, types)?)),
        None => {
            let zero = boxed(alloc, Term::Num(0));
            let (x, zero) = both(boxed_term(alloc, x, meanings, types), zero)?;
            Ok(Term::Eq(x, zero))
        }
    }
}

/// A call with one argument.
fn reversed(name: &Name, s: Boxed<Term>) -> Term
    ensures { result ≡ spec.call name.now (s ∷ []) }
{
    if is_reverse(name) {
        Term::Reverse(s)
    } else {
        Term::Num(0)
    }
}

/// A call with three arguments.
fn between(name: &Name, i: Boxed<Term>, j: Boxed<Term>, s: Boxed<Term>) -> Term
    ensures { result ≡ spec.call name.now (i ∷ j ∷ s ∷ []) }
{
    if is_between(name) {
        Term::Part(i, j, s)
    } else {
        Term::Num(0)
    }
}

/// What stands between two terms. A comparison by `>` or `>=` has its sides exchanged.
fn binary(alloc: Global, op: BinOp, x: Boxed<Term>, y: Boxed<Term>) -> Result<Term, NoMemory>
    ensures { IfOk result (λ t. t ≡ spec.binary op x y) }
{
    match op {
        BinOp::Add => Ok(Term::Add(x, y)),
        BinOp::Sub => Ok(Term::Sub(x, y)),
        BinOp::Mul => Ok(Term::Mul(x, y)),
        BinOp::Div => Ok(Term::Div(x, y)),
        BinOp::Mod => Ok(Term::Mod(x, y)),
        BinOp::Cat => Ok(Term::Cat(x, y)),
        BinOp::Eq => Ok(Term::Eq(x, y)),
        BinOp::NotEq => Ok(Term::Not(boxed(alloc, Term::Eq(x, y))?)),
        BinOp::Less => Ok(Term::Less(x, y)),
        BinOp::LessEq => Ok(Term::LessEq(x, y)),
        BinOp::Greater => Ok(Term::Less(y, x)),
        BinOp::GreaterEq => Ok(Term::LessEq(y, x)),
        BinOp::And => Ok(Term::And(x, y)),
        BinOp::Or => Ok(Term::Or(x, y)),
        BinOp::Implies => Ok(Term::Implies(x, y)),
    }
}

/// What a name means.
fn word(alloc: Global, meanings: &[Meaning], old: bool, name: &Name) -> Result<Term, NoMemory>
    ensures { IfOk result (λ t. t ≡ spec.word_in meanings.now old name.now) }
{
    match find_word(meanings, old, name) {
        Some(m) => m.term.copy(alloc),
        None => Ok(Term::Num(0)),
    }
}

/// What a part of a name means.
fn dotted(
    alloc: Global,
    meanings: &[Meaning],
    old: bool,
    name: &Name,
    part: &Name,
) -> Result<Term, NoMemory>
    ensures { IfOk result (λ t. t ≡ spec.part_in meanings.now old name.now part.now) }
{
    match find_part(meanings, old, name, part) {
        Some(m) => m.term.copy(alloc),
        None => Ok(Term::Num(0)),
    }
}

fn find_word<'m>(meanings: &'m [Meaning], old: bool, name: &Name) -> Option<&'m Meaning>
    ensures { option_copied result ≡ find (spec.is_word old name.now) meanings.now }
{
    for m in meanings {
        if m.is_word(old, name) {
            return Some(m);
        }
    }
    None
}

fn find_part<'m>(
    meanings: &'m [Meaning],
    old: bool,
    name: &Name,
    part: &Name,
) -> Option<&'m Meaning>
    ensures { option_copied result ≡ find (spec.is_part old name.now part.now) meanings.now }
{
    for m in meanings {
        if m.is_part(old, name, part) {
            return Some(m);
        }
    }
    None
}

impl Meaning {
    /// Whether it is of this name without a part.
    fn is_word(&self, old: bool, name: &Name) -> bool
        ensures { result ≡ spec.is_word old name.now self.now }
    {
        self.old == old && self.part.is_none() && self.name.same(name)
    }

    /// Whether it is of this part of this name.
    fn is_part(&self, old: bool, name: &Name, part: &Name) -> bool
        ensures { result ≡ spec.is_part old name.now part.now self.now }
    {
        match &self.part {
            Some(own) => self.old == old && own.same(part) && self.name.same(name),
            None => false,
        }
    }
}

/// The number of a type formal.
pub(crate) fn number_of(types: &[(Name, u32)], name: &Name) -> Option<u32>
    ensures { result ≡ spec.number_in types.now name.now }
{
    match find_type(types, name) {
        Some(pair) => Some(pair.1),
        None => None,
    }
}

fn find_type<'t>(types: &'t [(Name, u32)], name: &Name) -> Option<&'t (Name, u32)>
    ensures { option_copied result ≡ find (spec.is_named name.now) types.now }
{
    for pair in types {
        if is_named(pair, name) {
            return Some(pair);
        }
    }
    None
}

fn is_named(pair: &(Name, u32), name: &Name) -> bool
    ensures { result ≡ spec.is_named name.now pair.now }
{
    pair.0.same(name)
}

/// Whether the name is that of the function that reverses strings.
#[tactic(auto, unfolding(crate::specs::Assertions::is_reverse))]
fn is_reverse(name: &Name) -> bool
    ensures { result ≡ spec.is_reverse name.now }
{
    name.bytes() == REVERSE
}

/// Whether the name is that of the function that takes entries of strings.
#[tactic(auto, unfolding(crate::specs::Assertions::is_between))]
fn is_between(name: &Name) -> bool
    ensures { result ≡ spec.is_between name.now }
{
    name.bytes() == BETWEEN
}
