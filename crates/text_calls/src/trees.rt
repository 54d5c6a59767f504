//! How trees are written: a node as its word and place, `Sub@6`, and then what it is made of, in brackets.

use crate::saying::{put_bytes, say, say_bytes};
use crate::trouble::Trouble;
use math_terms::Name;
use res_ast::{
    BinOp, Component, Concept, Expr, Family, Form, Heading, LocalOp, MPart, Place, Procedure, Stmt,
};

// `NAME.`, where there is a name.
fn put_before(said: &mut String, name: &Option<Name>) -> Result<(), Trouble> {
    if let Some(name) = name {
        put_bytes(said, name.bytes())?;
        said.push_str(".")?;
    }
    Ok(())
}

fn say_two(said: &mut String, mark: &str, name: &Name, other: &Name) -> Result<(), Trouble> {
    say(said, mark)?;
    put_bytes(said, name.bytes())?;
    said.push_str(".")?;
    put_bytes(said, other.bytes())
}

fn operator(op: BinOp) -> &'static str {
    match op {
        BinOp::Add => "Add",
        BinOp::Sub => "Sub",
        BinOp::Mul => "Mul",
        BinOp::Div => "Div",
        BinOp::Mod => "Mod",
        BinOp::Cat => "Cat",
        BinOp::Eq => "Eq",
        BinOp::NotEq => "NotEq",
        BinOp::Less => "Less",
        BinOp::LessEq => "LessEq",
        BinOp::Greater => "Greater",
        BinOp::GreaterEq => "GreaterEq",
        BinOp::And => "And",
        BinOp::Or => "Or",
        BinOp::Implies => "Implies",
    }
}

fn say_operation(said: &mut String, facility: &Option<Name>, name: &Name) -> Result<(), Trouble> {
    say(said, "Call:")?;
    put_before(said, facility)?;
    put_bytes(said, name.bytes())
}

// The word of a node.
fn say_form(said: &mut String, form: &Form) -> Result<(), Trouble> {
    match form {
        Form::Int(n) => write!(said, " {n}")?,
        Form::Truth(b) => write!(said, " {b}")?,
        Form::MinInt => say(said, "min_int")?,
        Form::MaxInt => say(said, "max_int")?,
        Form::Word(name) => say_bytes(said, name.bytes())?,
        Form::Old(name) => {
            say(said, "#")?;
            put_bytes(said, name.bytes())?;
        }
        Form::Dot(name, part) => say_two(said, "", name, part)?,
        Form::OldDot(name, part) => say_two(said, "#", name, part)?,
        Form::Call(facility, name, _) => say_operation(said, facility, name)?,
        Form::Initial(name, _) => {
            say(said, "Initial:")?;
            put_bytes(said, name.bytes())?;
        }
        Form::Not(_) => say(said, "Not")?,
        Form::Minus(_) => say(said, "Minus")?,
        Form::Binary(op, _, _) => say(said, operator(*op))?,
        Form::Empty => say(said, "Empty")?,
        Form::Single(_) => say(said, "Single")?,
        Form::Bars(_) => say(said, "Bars")?,
        Form::Tuple(_) => say(said, "Tuple")?,
    }
    Ok(())
}

/// An expression.
#[cycle(say_expr)]
pub fn say_expr(said: &mut String, e: &Expr) -> Result<(), Trouble> {
    let at = e.at;
    say_form(said, &e.form)?;
    write!(said, "@{at}")?;
    say_operands(said, &e.form)
}

#[cycle(say_expr)]
fn say_one(said: &mut String, e: &Expr) -> Result<(), Trouble> {
    say(said, "(")?;
    say_expr(said, e)?;
    say(said, ")")
}

#[cycle(say_expr)]
fn say_list(said: &mut String, es: &[Expr]) -> Result<(), Trouble> {
    say(said, "(")?;
    for e in es {
        say_expr(said, e)?;
    }
    say(said, ")")
}

#[cycle(say_expr)]
fn say_operands(said: &mut String, form: &Form) -> Result<(), Trouble> {
    match form {
        Form::Call(_, _, args) => say_list(said, args.as_slice()),
        Form::Tuple(parts) => say_list(said, parts.as_slice()),
        Form::Binary(_, a, b) => {
            say(said, "(")?;
            say_expr(said, a.get())?;
            say_expr(said, b.get())?;
            say(said, ")")
        }
        Form::Initial(_, a) => say_one(said, a.get()),
        Form::Not(a) => say_one(said, a.get()),
        Form::Minus(a) => say_one(said, a.get()),
        Form::Single(a) => say_one(said, a.get()),
        Form::Bars(a) => say_one(said, a.get()),
        _ => Ok(()),
    }
}

fn say_place(said: &mut String, place: &Place) -> Result<(), Trouble> {
    let at = place.at;
    say_bytes(said, place.base.bytes())?;
    if let Some(field) = &place.field {
        said.push_str(".")?;
        put_bytes(said, field.bytes())?;
    }
    write!(said, "@{at}")?;
    Ok(())
}

#[cycle(say_stmt)]
fn say_stmt(said: &mut String, s: &Stmt) -> Result<(), Trouble> {
    match s {
        Stmt::Swap(at, x, y) => {
            write!(said, " Swap@{at}")?;
            say_place(said, x)?;
            say_place(said, y)
        }
        Stmt::Assign(at, x, e) => {
            write!(said, " Assign@{at}")?;
            say_place(said, x)?;
            say_expr(said, e)
        }
        Stmt::Call(at, facility, name, args) => {
            say_operation(said, facility, name)?;
            write!(said, "@{at}")?;
            say_list(said, args.as_slice())
        }
        Stmt::If(at, guard, first, second) => {
            write!(said, " If@{at}")?;
            say_expr(said, guard)?;
            say_stmts(said, first.as_slice())?;
            say_stmts(said, second.as_slice())
        }
        Stmt::While(at, guard, places, invariant, metric, body) => {
            write!(said, " While@{at}")?;
            say_expr(said, guard)?;
            say_places(said, places.as_slice())?;
            say_expr(said, invariant)?;
            say_expr(said, metric)?;
            say_stmts(said, body.as_slice())
        }
    }
}

fn say_places(said: &mut String, places: &[Place]) -> Result<(), Trouble> {
    for place in places {
        say_place(said, place)?;
    }
    Ok(())
}

#[cycle(say_stmt)]
fn say_stmts(said: &mut String, stmts: &[Stmt]) -> Result<(), Trouble> {
    say(said, "{")?;
    for s in stmts {
        say_stmt(said, s)?;
    }
    say(said, "}")
}

fn say_clause(said: &mut String, word: &str, clause: &Option<Expr>) -> Result<(), Trouble> {
    match clause {
        Some(e) => {
            say(said, word)?;
            say_expr(said, e)
        }
        None => Ok(()),
    }
}

// A heading: its name and place, each parameter with its place, and its clauses.
fn say_heading(said: &mut String, heading: &Heading) -> Result<(), Trouble> {
    let at = heading.at;
    say_bytes(said, heading.name.bytes())?;
    write!(said, "@{at}")?;
    for param in heading.params.as_slice() {
        let at = param.at;
        say_bytes(said, param.name.bytes())?;
        write!(said, "@{at}:")?;
        put_bytes(said, param.ptype.name.bytes())?;
    }
    say_clause(said, "requires", &heading.requires_clause)?;
    say_clause(said, "ensures", &heading.ensures_clause)
}

fn say_procedure(said: &mut String, procedure: &Procedure) -> Result<(), Trouble> {
    let at = procedure.at;
    let end = procedure.end_at;
    write!(said, " Procedure@{at}")?;
    say_heading(said, &procedure.heading)?;
    say_clause(said, "decreasing", &procedure.metric)?;
    for (name, ptype) in procedure.vars.as_slice() {
        let at = ptype.at;
        say_bytes(said, name.bytes())?;
        write!(said, ":")?;
        put_bytes(said, ptype.name.bytes())?;
        write!(said, "@{at}")?;
    }
    say_stmts(said, procedure.body.as_slice())?;
    write!(said, " end@{end}")?;
    Ok(())
}

fn say_locals(said: &mut String, locals: &[LocalOp]) -> Result<(), Trouble> {
    for local in locals {
        say_procedure(said, &local.procedure)?;
    }
    Ok(())
}

fn say_part(said: &mut String, part: &MPart) -> Result<(), Trouble> {
    match part {
        MPart::Z => say(said, "Z"),
        MPart::B => say(said, "B"),
        MPart::Str => say(said, "Str"),
        MPart::Prod(names) => {
            say(said, "Prod")?;
            for name in names.as_slice() {
                say_bytes(said, name.bytes())?;
            }
            Ok(())
        }
        MPart::Param(name) => say_bytes(said, name.bytes()),
    }
}

// The parts of a family's model, each behind what it is made of.
fn say_family(said: &mut String, family: &Family) -> Result<(), Trouble> {
    say(said, "Family")?;
    say_bytes(said, family.name.bytes())?;
    say(said, "[")?;
    for part in family.model.parts.as_slice() {
        say_part(said, part)?;
    }
    say(said, "]")?;
    say_clause(said, "constraint", &family.constraint)?;
    say(said, "initial")?;
    say_expr(said, &family.initial)
}

fn say_concept(said: &mut String, concept: &Concept) -> Result<(), Trouble> {
    let at = concept.at;
    say(said, "Concept")?;
    say_bytes(said, concept.name.bytes())?;
    write!(said, "@{at}")?;
    for formal in concept.formals.as_slice() {
        let at = formal.at;
        say_bytes(said, formal.name.bytes())?;
        write!(said, "@{at}")?;
    }
    say_clause(said, "requires", &concept.requires_clause)?;
    if let Some(family) = &concept.family {
        say_family(said, family)?;
    }
    for heading in concept.headings.as_slice() {
        say_heading(said, heading)?;
    }
    Ok(())
}

/// A component, with its kind, name and place; a concept with its clauses, a facility module with its operations.
pub fn say_component(said: &mut String, component: &Component) -> Result<(), Trouble> {
    match component {
        Component::Concept(concept) => say_concept(said, concept),
        Component::Enhancement(enhancement) => {
            let at = enhancement.at;
            say(said, "Enhancement")?;
            say_bytes(said, enhancement.name.bytes())?;
            write!(said, "@{at}")?;
            Ok(())
        }
        Component::Realization(realization) => {
            let at = realization.at;
            say(said, "Realization")?;
            say_bytes(said, realization.name.bytes())?;
            write!(said, "@{at}")?;
            say_locals(said, realization.locals.as_slice())
        }
        Component::Facility(module) => {
            let at = module.at;
            say(said, "Facility")?;
            say_bytes(said, module.name.bytes())?;
            write!(said, "@{at}")?;
            say_locals(said, module.operations.as_slice())
        }
    }
}
