//! A cell seen by its head.

ghost use Rattle.std.specs.Prelude.{◌≡◌, true, IfSome, ℕ};
ghost use Rattle.math_terms.specs.declared.term.Term.{Term};
ghost use Rattle.math_terms.specs.declared.term.Term.TheViews.{out-Term};
ghost use Rattle.term_cells.specs.Standing.{stands};
ghost use Rattle.term_rewriting.specs.Nodes.{ShowsAt, node_of as head_of};

use math_terms::{Binary, Form, Unary};
use term_cells::{Cell, Cells, standing_opens};

/// A node in cells, with the places of its parts. A tuple has the place of the list of its parts.
#[derive(Clone, Copy, Debug)]
pub(crate) enum Node {
    Num(i64),
    Truth(bool),
    MinInt,
    MaxInt,
    Var(i64),
    Empty,
    One(Unary, u32),
    Two(Binary, u32, u32),
    Part(u32, u32, u32),
    Tuple(u32),
    Proj(i64, u32),
    Initial(i64, u32),
}

/// The node of the term at a place.
pub(crate) fn node_at(cells: &Cells, p: u32) -> Option<Node>
    ensures { (t : Term) → stands cells.now.0 t p ≡ true → ShowsAt cells.now.0 p t result }
{
    standing_opens();
    let cell = cells.at(p)?;
    Some(node_of(cell.node_form()?, cell))
}

/// The node of a cell of this form.
fn node_of(form: Form, cell: Cell) -> Node
    ensures { result ≡ head_of form cell }
{
    match form {
        Form::Num => Node::Num(cell.own),
        Form::Truth => Node::Truth(cell.own == 1),
        Form::MinInt => Node::MinInt,
        Form::MaxInt => Node::MaxInt,
        Form::Var => Node::Var(cell.own),
        Form::Add => Node::Two(Binary::Add, cell.a, cell.b),
        Form::Sub => Node::Two(Binary::Sub, cell.a, cell.b),
        Form::Mul => Node::Two(Binary::Mul, cell.a, cell.b),
        Form::Div => Node::Two(Binary::Div, cell.a, cell.b),
        Form::Mod => Node::Two(Binary::Mod, cell.a, cell.b),
        Form::Len => Node::One(Unary::Len, cell.a),
        Form::Empty => Node::Empty,
        Form::Single => Node::One(Unary::Single, cell.a),
        Form::Cat => Node::Two(Binary::Cat, cell.a, cell.b),
        Form::Reverse => Node::One(Unary::Reverse, cell.a),
        Form::Part => Node::Part(cell.a, cell.b, cell.c),
        Form::Tuple => Node::Tuple(cell.a),
        Form::Proj => Node::Proj(cell.own, cell.a),
        Form::Eq => Node::Two(Binary::Eq, cell.a, cell.b),
        Form::Less => Node::Two(Binary::Less, cell.a, cell.b),
        Form::LessEq => Node::Two(Binary::LessEq, cell.a, cell.b),
        Form::Not => Node::One(Unary::Not, cell.a),
        Form::And => Node::Two(Binary::And, cell.a, cell.b),
        Form::Or => Node::Two(Binary::Or, cell.a, cell.b),
        Form::Implies => Node::Two(Binary::Implies, cell.a, cell.b),
        Form::Initial => Node::Initial(cell.own, cell.a),
    }
}
