//! What the formulas of a sequent in cells give where it is split. Nothing is made yet.

ghost use Rattle.std.specs.Prelude.{◌≡◌, ◌+◌, ◌&&◌, leb, true, List, map, IfNone, IfSome, Some, None, if◌then◌else◌, Option, pos};
ghost use Rattle.std.specs.Ordering.{int_eq};
ghost use Rattle.std.specs.List.{list_all};
ghost use Rattle.math_terms.specs.declared.term.Term.{Term};
ghost use Rattle.math_terms.specs.declared.term.Term.TheOpen.{Term-F};
ghost use Rattle.math_terms.specs.declared.term.Term.TheViews.{out-Term};
ghost use Rattle.math_terms.specs.Kinds.{sort_of_desc};
ghost use Rattle.math_terms.specs.Terms.{nodes};
ghost use Rattle.vc_sequents.specs.Splitting as rule;
ghost use Rattle.term_cells.specs.Growing.{Grows, IsShort, StandsThere};
ghost use Rattle.term_cells.specs.Standing.{stands};
ghost use Rattle.cert_check.specs.working.Cases.{CasesAre, FormulasAre, GoalCasesAre, GoalIs, PartIs, made};
ghost use Rattle.cert_check.specs.Legality.{small_cases, small_goal_cases, is_small as is_small_term};

use math_terms::{Desc, Form, Name};
use term_cells::{Cell, Cells, leaves_open, one_opens, standing_lasts, standing_opens, two_opens};

/// No formula may have more nodes.
const MOST_NODES: u32 = 10_000;

/// A formula over what stands in cells: the one at a place, `true` or `false`, the negation of one, a form over two, a form over the
/// negations of two, or the conjunction of one with the negation of another.
#[derive(Clone, Copy)]
pub(crate) enum Part {
    At(u32),
    Truth(bool),
    Not(u32),
    Two(Form, u32, u32),
    OfNegations(Form, u32, u32),
    AndNot(u32, u32),
}

/// One sequent of a split. Where a hypothesis is split, the formulas come in its place; where the goal is, the last is the goal and
/// the other comes last among the hypotheses.
#[derive(Clone, Copy)]
pub(crate) enum Case {
    Nothing,
    Only(Part),
    Both(Part, Part),
}

/// The sequents of a split, of which there are one or two.
#[derive(Clone, Copy)]
pub(crate) enum Cases {
    One(Case),
    Two(Case, Case),
}

/// Whether both places have numbers.
fn are_numbers(cells: &Cells, vars: &[(Name, Desc)], p: u32, q: u32) -> bool
    ensures { (t u : Term) → stands cells.now.0 t p ≡ true → stands cells.now.0 u q ≡ true → result ≡ rule.of_numbers (map (λ v. sort_of_desc v.1) vars.now) t u }
{
    cells.is_number(p, vars) && cells.is_number(q, vars)
}

/// Whether both places have truth values.
fn are_truths(cells: &Cells, vars: &[(Name, Desc)], p: u32, q: u32) -> bool
    ensures { (t u : Term) → stands cells.now.0 t p ≡ true → stands cells.now.0 u q ≡ true → result ≡ rule.of_truths (map (λ v. sort_of_desc v.1) vars.now) t u }
{
    cells.is_truth(p, vars) && cells.is_truth(q, vars)
}

/// What a hypothesis gives.
pub(crate) fn hypothesis_cases(cells: &Cells, vars: &[(Name, Desc)], p: u32) -> Option<Cases>
    ensures { (f : Term) → stands cells.now.0 f p ≡ true → CasesAre cells.now.0 result (rule.hypothesis_cases (map (λ v. sort_of_desc v.1) vars.now) f) }
{
    one_opens();
    two_opens();
    leaves_open();
    standing_opens();
    let cell = cells.at(p)?;
    let form = cell.node_form()?;
    let (a, b) = (cell.a, cell.b);
    match form {
        Form::Truth => truth_cases(says_true(cell)),
        Form::And => Some(Cases::One(Case::Both(Part::At(a), Part::At(b)))),
        Form::Or => Some(Cases::Two(Case::Only(Part::At(a)), Case::Only(Part::At(b)))),
        Form::Implies => Some(Cases::Two(Case::Only(Part::Not(a)), Case::Only(Part::At(b)))),
        Form::Not => negation_cases(cells, vars, a),
        Form::Eq => equation_cases(cells, vars, a, b),
        _ => None,
    }
}

/// Whether the cell of a truth value says `true`.
fn says_true(cell: Cell) -> bool
    ensures { result ≡ int_eq cell.own (pos 1) }
{
    cell.own == 1
}

/// What a truth value gives: nothing comes in the place of `true`.
fn truth_cases(is_true: bool) -> Option<Cases>
    ensures { result ≡ (if is_true then Some (Cases.One Case.Nothing) else None) }
{
    if is_true {
        Some(Cases::One(Case::Nothing))
    } else {
        None
    }
}

/// What an equation gives: both sides are true, or both are not.
fn equation_cases(cells: &Cells, vars: &[(Name, Desc)], a: u32, b: u32) -> Option<Cases>
    ensures { (t u : Term) → stands cells.now.0 t a ≡ true → stands cells.now.0 u b ≡ true → CasesAre cells.now.0 result (rule.form_cases (map (λ v. sort_of_desc v.1) vars.now) (Term-F.Eq t u)) }
{
    if !are_truths(cells, vars, a, b) {
        return None;
    }
    Some(Cases::Two(
        Case::Both(Part::At(a), Part::At(b)),
        Case::Both(Part::Not(a), Part::Not(b)),
    ))
}

/// What the negation of a formula gives.
fn negation_cases(cells: &Cells, vars: &[(Name, Desc)], p: u32) -> Option<Cases>
    ensures { (f : Term) → stands cells.now.0 f p ≡ true → CasesAre cells.now.0 result (rule.negation_cases (map (λ v. sort_of_desc v.1) vars.now) (out-Term f)) }
{
    one_opens();
    two_opens();
    leaves_open();
    standing_opens();
    let cell = cells.at(p)?;
    let form = cell.node_form()?;
    let (a, b) = (cell.a, cell.b);
    match form {
        Form::Truth => Some(Cases::One(Case::Only(Part::Truth(!says_true(cell))))),
        Form::Not => Some(Cases::One(Case::Only(Part::At(a)))),
        Form::And => Some(Cases::One(Case::Only(Part::OfNegations(Form::Or, a, b)))),
        Form::Or => Some(Cases::One(Case::Only(Part::OfNegations(Form::And, a, b)))),
        Form::Implies => Some(Cases::One(Case::Only(Part::AndNot(a, b)))),
        Form::LessEq => Some(Cases::One(Case::Only(Part::Two(Form::Less, b, a)))),
        Form::Less => Some(Cases::One(Case::Only(Part::Two(Form::LessEq, b, a)))),
        Form::Eq => inequation_cases(cells, vars, a, b),
        _ => None,
    }
}

/// What the negation of an equation gives: one number is below the other, or one side is true and the other is not.
fn inequation_cases(cells: &Cells, vars: &[(Name, Desc)], a: u32, b: u32) -> Option<Cases>
    ensures { (t u : Term) → stands cells.now.0 t a ≡ true → stands cells.now.0 u b ≡ true → CasesAre cells.now.0 result (rule.negation_cases (map (λ v. sort_of_desc v.1) vars.now) (Term-F.Eq t u)) }
{
    if are_numbers(cells, vars, a, b) {
        return Some(Cases::Two(
            Case::Only(Part::Two(Form::Less, a, b)),
            Case::Only(Part::Two(Form::Less, b, a)),
        ));
    }
    if !are_truths(cells, vars, a, b) {
        return None;
    }
    Some(Cases::Two(
        Case::Both(Part::At(a), Part::Not(b)),
        Case::Both(Part::Not(a), Part::At(b)),
    ))
}

/// What a goal gives.
pub(crate) fn goal_cases(cells: &Cells, vars: &[(Name, Desc)], p: u32) -> Option<Cases>
    ensures { (f : Term) → stands cells.now.0 f p ≡ true → GoalCasesAre cells.now.0 result (rule.goal_cases (map (λ v. sort_of_desc v.1) vars.now) f) }
{
    one_opens();
    two_opens();
    standing_opens();
    let cell = cells.at(p)?;
    let form = cell.node_form()?;
    let (a, b) = (cell.a, cell.b);
    match form {
        Form::And => Some(Cases::Two(Case::Only(Part::At(a)), Case::Only(Part::At(b)))),
        Form::Or => Some(Cases::One(Case::Both(Part::Not(a), Part::At(b)))),
        Form::Implies => Some(Cases::One(Case::Both(Part::At(a), Part::At(b)))),
        Form::Not => Some(Cases::One(Case::Both(Part::At(a), Part::Truth(false)))),
        Form::Eq => equal_goals(cells, vars, a, b),
        _ => None,
    }
}

/// What an equation as a goal gives: each way of it.
fn equal_goals(cells: &Cells, vars: &[(Name, Desc)], a: u32, b: u32) -> Option<Cases>
    ensures { (t u : Term) → stands cells.now.0 t a ≡ true → stands cells.now.0 u b ≡ true → GoalCasesAre cells.now.0 result (rule.form_goals (map (λ v. sort_of_desc v.1) vars.now) (Term-F.Eq t u)) }
{
    if are_numbers(cells, vars, a, b) {
        return Some(Cases::Two(
            Case::Only(Part::Two(Form::LessEq, a, b)),
            Case::Only(Part::Two(Form::LessEq, b, a)),
        ));
    }
    if are_truths(cells, vars, a, b) {
        return Some(Cases::Two(
            Case::Only(Part::Two(Form::Implies, a, b)),
            Case::Only(Part::Two(Form::Implies, b, a)),
        ));
    }
    None
}

/// Whether a formula has at most 10,000 nodes.
fn is_small(cells: &Cells, part: Part) -> bool
    ensures { (t : Term) → PartIs cells.now.0 part t → result ≡ is_small_term t }
{
    match part {
        Part::At(p) => cells.nodes_up_to(p, MOST_NODES) <= MOST_NODES,
        Part::Truth(_) => true,
        Part::Not(p) => cells.nodes_up_to(p, MOST_NODES) < MOST_NODES,
        Part::Two(_, p, q) => are_few(cells, p, q, 1),
        Part::OfNegations(_, p, q) => are_few(cells, p, q, 3),
        Part::AndNot(p, q) => are_few(cells, p, q, 2),
    }
}

/// Whether two formulas and so many nodes more have at most 10,000 nodes.
fn are_few(cells: &Cells, p: u32, q: u32, more: u8) -> bool
    ensures { (t u : Term) → stands cells.now.0 t p ≡ true → stands cells.now.0 u q ≡ true → result ≡ leb (nodes t + nodes u + more) 10000 }
{
    let left = cells.nodes_up_to(p, MOST_NODES);
    let right = cells.nodes_up_to(q, MOST_NODES);
    left <= MOST_NODES && right <= MOST_NODES && left + right + u32::from(more) <= MOST_NODES
}

/// Whether the formulas of a case have at most 10,000 nodes.
fn is_small_case(cells: &Cells, case: Case) -> bool
    ensures hypothesis { (fs : List Term) → FormulasAre cells.now.0 case fs → result ≡ list_all is_small_term fs }
    ensures goal { (g : rule.GoalCase) → GoalIs cells.now.0 case g → result ≡ (list_all is_small_term g.0 && is_small_term g.1) }
{
    match case {
        Case::Nothing => true,
        Case::Only(x) => is_small(cells, x),
        Case::Both(x, y) => is_small(cells, x) && is_small(cells, y),
    }
}

/// Whether all formulas of a split have at most 10,000 nodes.
pub(crate) fn are_small(cells: &Cells, cases: Cases) -> bool
    ensures hypothesis { (o : Option (List (List Term))) → CasesAre cells.now.0 (Some cases) o → result ≡ small_cases o }
    ensures goal { (o : Option (List rule.GoalCase)) → GoalCasesAre cells.now.0 (Some cases) o → result ≡ small_goal_cases o }
{
    match cases {
        Cases::One(first) => is_small_case(cells, first),
        Cases::Two(first, second) => is_small_case(cells, first) && is_small_case(cells, second),
    }
}

/// Makes a formula of what stands; none where there is no room.
pub(crate) fn make(cells: &mut Cells, part: Part) -> Option<u32>
    ensures standing { (t : Term) → PartIs cells.old.0 part t → StandsThere cells.new.0 t result }
    ensures grown { Grows cells.old cells.new (made part + 1) }
    ensures short { IfNone result (IsShort cells.old (made part + 1)) }
{
    match part {
        Part::At(p) => Some(p),
        Part::Truth(b) => cells.leaf(Form::Truth, i64::from(b)),
        Part::Not(p) => cells.one(Form::Not, 0, p),
        Part::Two(form, p, q) => cells.two(form, p, q),
        Part::OfNegations(form, p, q) => make_of_negations(cells, form, p, q),
        Part::AndNot(p, q) => make_and_not(cells, p, q),
    }
}

fn make_of_negations(cells: &mut Cells, form: Form, p: u32, q: u32) -> Option<u32>
    ensures standing { (t : Term) → PartIs cells.old.0 (Part.OfNegations form p q) t → StandsThere cells.new.0 t result }
    ensures grown { Grows cells.old cells.new 4 }
    ensures short { IfNone result (IsShort cells.old 4) }
{
    standing_lasts();
    let left = cells.one(Form::Not, 0, p)?;
    let right = cells.one(Form::Not, 0, q)?;
    cells.two(form, left, right)
}

fn make_and_not(cells: &mut Cells, p: u32, q: u32) -> Option<u32>
    ensures standing { (t : Term) → PartIs cells.old.0 (Part.AndNot p q) t → StandsThere cells.new.0 t result }
    ensures grown { Grows cells.old cells.new 3 }
    ensures short { IfNone result (IsShort cells.old 3) }
{
    standing_lasts();
    let right = cells.one(Form::Not, 0, q)?;
    cells.two(Form::And, p, right)
}
