//! What stands around and between the children in the text of a node, form by form.

ghost use Rattle.std.specs.Prelude.{◌≡◌, ◌≤◌, length};
ghost use Rattle.math_terms.specs.Forms.{form_number};
ghost use Rattle.term_cells.specs.working.Marks as spec;

use math_terms::Form;

/// What comes before the first child; of a truth value its text.
pub(crate) fn opening(form: Form, own: i64) -> &'static [u8]
    ensures text { result.now ≡ spec.opening (form_number form) own }
    ensures short { length result.now ≤ 40 }
{
    match form {
        Form::Truth => { if own == 1 { b"true" } else { b"false" } }
        Form::MinInt => b"min_int",
        Form::MaxInt => b"max_int",
        Form::Var => b"v",
        Form::Len => b"|",
        Form::Empty => b"Empty_String",
        Form::Single => b"<",
        Form::Reverse => b"Reverse(",
        Form::Part => b"Prt_Btwn(",
        Form::Tuple => b"(",
        Form::Not => b"not ",
        Form::Initial => b"Is_Initial(",
        _ => b"",
    }
}

/// What comes between two children.
pub(crate) fn symbol(form: Form) -> &'static [u8]
    ensures text { result.now ≡ spec.symbol (form_number form) }
    ensures short { length result.now ≤ 40 }
{
    match form {
        Form::Add => b" + ",
        Form::Sub => b" - ",
        Form::Mul => b" * ",
        Form::Div => b" div ",
        Form::Mod => b" mod ",
        Form::Cat => b" o ",
        Form::Part => b", ",
        Form::Eq => b" = ",
        Form::Less => b" < ",
        Form::LessEq => b" <= ",
        Form::And => b" and ",
        Form::Or => b" or ",
        Form::Implies => b" implies ",
        _ => b"",
    }
}

/// What comes after the last child.
pub(crate) fn closing(form: Form) -> &'static [u8]
    ensures text { result.now ≡ spec.closing (form_number form) }
    ensures short { length result.now ≤ 40 }
{
    match form {
        Form::Len => b"|",
        Form::Single => b">",
        Form::Reverse | Form::Part | Form::Tuple | Form::Initial => b")",
        Form::Proj => b".",
        _ => b"",
    }
}

/// Whether the node's own number comes last.
pub(crate) fn is_numbered(form: Form) -> bool
    ensures { result ≡ spec.is_numbered (form_number form) }
{
    matches!(form, Form::Num | Form::Var | Form::Proj)
}

/// How strong the first child is at least where it stands without parentheses.
pub(crate) fn left_least(form: Form) -> u8
    ensures { result ≡ spec.left_least (form_number form) }
{
    match form {
        Form::Add | Form::Sub => 6,
        Form::Mul | Form::Div | Form::Mod => 7,
        Form::Len | Form::Single | Form::Cat | Form::Eq | Form::Less | Form::LessEq => 5,
        Form::Proj => 9,
        Form::Not => 3,
        Form::And => 2,
        Form::Or | Form::Implies => 1,
        _ => 0,
    }
}

/// The same of the other children.
pub(crate) fn right_least(form: Form) -> u8
    ensures { result ≡ spec.right_least (form_number form) }
{
    match form {
        Form::Add | Form::Sub => 7,
        Form::Mul | Form::Div | Form::Mod => 8,
        Form::Cat => 6,
        Form::Eq | Form::Less | Form::LessEq => 5,
        Form::And => 3,
        Form::Or => 2,
        _ => 0,
    }
}
