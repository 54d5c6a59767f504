//! The forms of terms, one for each head.

ghost use Rattle.std.specs.Prelude.{◌≡◌, Some, IfSome};
ghost use Rattle.math_terms.specs.declared.term.Term.TheViews.{out-Term};
ghost use Rattle.math_terms.specs.declared.form.Form.{Form as TheForm};
ghost use Rattle.math_terms.specs.Forms as spec;

use crate::term::Term;

/// The form of a node, in the order in which `Term` lists its heads.
#[derive(Clone, Copy, Debug, PartialEq, Eq)]
pub enum Form {
    Num,
    Truth,
    MinInt,
    MaxInt,
    Var,
    Add,
    Sub,
    Mul,
    Div,
    Mod,
    Len,
    Empty,
    Single,
    Cat,
    Reverse,
    Part,
    Tuple,
    Proj,
    Eq,
    Less,
    LessEq,
    Not,
    And,
    Or,
    Implies,
    Initial,
}

impl Form {
    /// The form's number, from 0 to 25.
    pub fn number(self) -> u8
        ensures { result ≡ spec.form_number self }
    {
        match self {
            Form::Num => 0,
            Form::Truth => 1,
            Form::MinInt => 2,
            Form::MaxInt => 3,
            Form::Var => 4,
            Form::Add => 5,
            Form::Sub => 6,
            Form::Mul => 7,
            Form::Div => 8,
            Form::Mod => 9,
            Form::Len => 10,
            Form::Empty => 11,
            Form::Single => 12,
            Form::Cat => 13,
            Form::Reverse => 14,
            Form::Part => 15,
            Form::Tuple => 16,
            Form::Proj => 17,
            Form::Eq => 18,
            Form::Less => 19,
            Form::LessEq => 20,
            Form::Not => 21,
            Form::And => 22,
            Form::Or => 23,
            Form::Implies => 24,
            Form::Initial => 25,
        }
    }

    /// The form of this number.
    pub fn from_number(number: u8) -> Option<Form>
        ensures numbered { IfSome result (λ f. spec.form_number f ≡ number) }
        ensures each { (f : TheForm) → spec.form_number f ≡ number → result ≡ Some f }
    {
        let form = match number {
            0 => Form::Num,
            1 => Form::Truth,
            2 => Form::MinInt,
            3 => Form::MaxInt,
            4 => Form::Var,
            5 => Form::Add,
            6 => Form::Sub,
            7 => Form::Mul,
            8 => Form::Div,
            9 => Form::Mod,
            10 => Form::Len,
            11 => Form::Empty,
            12 => Form::Single,
            13 => Form::Cat,
            14 => Form::Reverse,
            15 => Form::Part,
            16 => Form::Tuple,
            17 => Form::Proj,
            18 => Form::Eq,
            19 => Form::Less,
            20 => Form::LessEq,
            21 => Form::Not,
            22 => Form::And,
            23 => Form::Or,
            24 => Form::Implies,
            25 => Form::Initial,
            _ => return None,
        };
        Some(form)
    }

    /// How many children a node of the form has; none for a tuple, which has any number of parts.
    pub fn arity(self) -> Option<u8>
        ensures { result ≡ spec.arity self }
    {
        match self {
            Form::Num | Form::Truth | Form::MinInt | Form::MaxInt | Form::Var | Form::Empty => {
                Some(0)
            }
            Form::Len | Form::Single | Form::Reverse | Form::Proj | Form::Not | Form::Initial =>
                Some(1),
            Form::Part => Some(3),
            Form::Tuple => None,
            _ => Some(2),
        }
    }

    /// How strongly the form holds its parts together where a term is written: from 0 for `implies` to 7 for products,
    /// and 9 where nothing that stands beside it can take a part away.
    pub fn strength(self) -> u8
        ensures { result ≡ spec.strength self }
    {
        match self {
            Form::Implies => 0,
            Form::Or => 1,
            Form::And => 2,
            Form::Not => 3,
            Form::Eq | Form::Less | Form::LessEq => 4,
            Form::Cat => 5,
            Form::Add | Form::Sub => 6,
            Form::Mul | Form::Div | Form::Mod => 7,
            _ => 9,
        }
    }
}

impl Term {
    /// The form of the term's head.
    pub fn form(&self) -> Form
        ensures { result ≡ spec.form (out-Term self.now) }
    {
        match self {
            Term::Num(_) => Form::Num,
            Term::Truth(_) => Form::Truth,
            Term::MinInt => Form::MinInt,
            Term::MaxInt => Form::MaxInt,
            Term::Var(_) => Form::Var,
            Term::Add(_, _) => Form::Add,
            Term::Sub(_, _) => Form::Sub,
            Term::Mul(_, _) => Form::Mul,
            Term::Div(_, _) => Form::Div,
            Term::Mod(_, _) => Form::Mod,
            Term::Len(_) => Form::Len,
            Term::Empty => Form::Empty,
            Term::Single(_) => Form::Single,
            Term::Cat(_, _) => Form::Cat,
            Term::Reverse(_) => Form::Reverse,
            Term::Part(_, _, _) => Form::Part,
            Term::Tuple(_) => Form::Tuple,
            Term::Proj(_, _) => Form::Proj,
            Term::Eq(_, _) => Form::Eq,
            Term::Less(_, _) => Form::Less,
            Term::LessEq(_, _) => Form::LessEq,
            Term::Not(_) => Form::Not,
            Term::And(_, _) => Form::And,
            Term::Or(_, _) => Form::Or,
            Term::Implies(_, _) => Form::Implies,
            Term::Initial(_, _) => Form::Initial,
        }
    }
}
