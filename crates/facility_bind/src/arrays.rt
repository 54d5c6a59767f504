//! The built-in arrays: their type, and the operation that exchanges an entry.

ghost use Rattle.std.specs.Prelude.{◌≡◌, ◌∷◌, [], IfOk, Ok, MatchResult};
ghost use Rattle.facility_bind.specs.Bounds as spec;

use crate::binding::nothing;
use crate::bound::{Bound, BoundHeading};
use crate::clauses::behind;
use crate::scope::{Scope, array_name, boxed_type};
use math_terms::{Formula, Name, NoMemory, Term, both, boxed, with};
use res_ast::{Mode, TryCopy};
use sqlite_items::{Boxed, Items};
use std::alloc::Global;
use type_inst::{FormalArg, TypeInst};

const SWAP_ENTRY: &[u8] = b"Swap_Entry";

/// How many variables of `Swap_Entry` come before the Integer formals: three incoming, three outgoing, and the result.
const BEFORE: u32 = 7;

/// What an array with these arguments gives.
pub(crate) fn bind_array(
    alloc: Global,
    scope: &Scope,
    arguments: Items<FormalArg>,
) -> Result<Bound, NoMemory>
    ensures { IfOk result (λ b. b ≡ spec.array scope.now arguments) }
{
    match arguments.as_slice() {
        [FormalArg::Type(entry), FormalArg::Number(size)] => { array_of(alloc, scope, entry, size) }
        _ => Ok(nothing(alloc)),
    }
}

fn array_of(alloc: Global, scope: &Scope, entry: &TypeInst, size: &Term) -> Result<Bound, NoMemory>
    ensures { IfOk result (λ b. b ≡ spec.array_of scope.now entry.now size.now) }
{
    let headings = one_item(alloc, swap_entry(alloc, scope, entry, size));
    let name = array_name(alloc);
    let types = one_item(alloc, both(name, array_type(alloc, entry, size)));
    let (headings, types) = both(headings, types)?;
    Ok(Bound {
        requires_clause: None,
        headings,
        types,
    })
}

/// The list of one item.
fn one_item<T: Drop>(alloc: Global, item: Result<T, NoMemory>) -> Result<Items<T>, NoMemory>
    ensures { IfOk result (λ it. MatchResult item (λ x. it ≡ x ∷ []) (λ _. ⊥)) }
{
    let mut out = Items::new(alloc);
    out.push(item?)?;
    Ok(out)
}

fn array_type(alloc: Global, entry: &TypeInst, size: &Term) -> Result<TypeInst, NoMemory>
    ensures { IfOk result (λ t. t ≡ spec.array_of_entries entry.now size.now) }
{
    let (entry, size) = both(boxed_type(alloc, entry), size.copy(alloc))?;
    Ok(TypeInst::Array(entry, size))
}

fn swap_entry(
    alloc: Global,
    scope: &Scope,
    entry: &TypeInst,
    size: &Term,
) -> Result<BoundHeading, NoMemory>
    ensures { IfOk result (λ h. h ≡ spec.swap_entry scope.now entry.now size.now) }
{
    let lists = both(swap_modes(alloc), swap_types(alloc, entry, size));
    let clauses = swap_clauses(alloc, scope, size);
    let (name, (lists, clauses)) = both(Name::new(alloc, SWAP_ENTRY), both(lists, clauses))?;
    Ok(BoundHeading {
        name,
        modes: lists.0,
        types: lists.1,
        result: None,
        requires_clause: Some(clauses.0),
        ensures_clause: Some(clauses.1),
    })
}

fn swap_modes(alloc: Global) -> Result<Items<Mode>, NoMemory>
    ensures { IfOk result (λ ms. ms ≡ Mode.Updates ∷ Mode.Updates ∷ Mode.Evaluates ∷ []) }
{
    let mut out = Items::new(alloc);
    out.push(Mode::Updates)?;
    out.push(Mode::Updates)?;
    out.push(Mode::Evaluates)?;
    Ok(out)
}

fn swap_types(alloc: Global, entry: &TypeInst, size: &Term) -> Result<Items<TypeInst>, NoMemory>
    ensures { IfOk result (λ ts. ts ≡ spec.array_of_entries entry.now size.now ∷ entry.now ∷ TypeInst.Integer ∷ []) }
{
    let mut out = Items::new(alloc);
    let (array, entry) = both(array_type(alloc, entry, size), entry.copy(alloc))?;
    out.push(array)?;
    out.push(entry)?;
    out.push(TypeInst::Integer)?;
    Ok(out)
}

fn swap_clauses(alloc: Global, scope: &Scope, size: &Term) -> Result<(Formula, Formula), NoMemory>
    ensures { IfOk result (λ p. p ≡ (spec.within (spec.size_behind scope.now size.now), spec.swapped (spec.size_behind scope.now size.now))) }
{
    let size = boxed(alloc, behind(alloc, BEFORE, scope, size)?)?;
    both(within(alloc, size.get()), swapped(alloc, size.get()))
}

/// `0 <= I and I < Size`.
fn within(alloc: Global, size: &Term) -> Result<Formula, NoMemory>
    ensures { IfOk result (λ t. t ≡ spec.within size.now) }
{
    let low = both(boxed(alloc, Term::Num(0)), variable(alloc, 3));
    let high = both(variable(alloc, 3), copied(alloc, size));
    let (low, high) = both(low, high)?;
    let low = boxed(alloc, Term::LessEq(low.0, low.1));
    let high = boxed(alloc, Term::Less(high.0, high.1));
    let (low, high) = both(low, high)?;
    Ok(Term::And(low, high))
}

/// `A = Prt_Btwn(0, I, #A) o <#E> o Prt_Btwn(I + 1, Size, #A) and <E> = Prt_Btwn(I, I + 1, #A)`.
fn swapped(alloc: Global, size: &Term) -> Result<Formula, NoMemory>
    ensures { IfOk result (λ t. t ≡ spec.swapped size.now) }
{
    let array = equal(alloc, variable(alloc, 4), entries_after(alloc, size));
    let taken = part(alloc, variable(alloc, 6), next(alloc), variable(alloc, 1));
    let entry = equal(alloc, single(alloc, variable(alloc, 5)), taken);
    let (array, entry) = both(array, entry)?;
    Ok(Term::And(array, entry))
}

/// `Prt_Btwn(0, I, #A) o <#E> o Prt_Btwn(I + 1, Size, #A)`.
fn entries_after(alloc: Global, size: &Term) -> Result<Boxed<Term>, NoMemory>
    ensures { IfOk result (λ t. t ≡ spec.entries_after size.now) }
{
    let first = part(
        alloc,
        boxed(alloc, Term::Num(0)),
        variable(alloc, 6),
        variable(alloc, 1),
    );
    let changed = joined(alloc, first, single(alloc, variable(alloc, 2)));
    let last = part(alloc, next(alloc), copied(alloc, size), variable(alloc, 1));
    joined(alloc, changed, last)
}

fn variable(alloc: Global, k: u32) -> Result<Boxed<Term>, NoMemory>
    ensures { IfOk result (λ t. t ≡ Term.Var k) }
{
    boxed(alloc, Term::Var(k))
}

fn copied(alloc: Global, t: &Term) -> Result<Boxed<Term>, NoMemory>
    ensures { IfOk result (λ u. u ≡ t.now) }
{
    boxed(alloc, t.copy(alloc)?)
}

/// `I + 1`.
fn next(alloc: Global) -> Result<Boxed<Term>, NoMemory>
    ensures { IfOk result (λ t. t ≡ spec.next) }
{
    let (index, one) = both(variable(alloc, 6), boxed(alloc, Term::Num(1)))?;
    boxed(alloc, Term::Add(index, one))
}

fn single(alloc: Global, t: Result<Boxed<Term>, NoMemory>) -> Result<Boxed<Term>, NoMemory>
    ensures { IfOk result (λ r. MatchResult t (λ a. r ≡ spec.single a) (λ _. ⊥)) }
{
    boxed(alloc, Term::Single(t?))
}

fn joined(
    alloc: Global,
    s: Result<Boxed<Term>, NoMemory>,
    t: Result<Boxed<Term>, NoMemory>,
) -> Result<Boxed<Term>, NoMemory>
    ensures { IfOk result (λ r. MatchResult s (λ a. MatchResult t (λ b. r ≡ spec.join a b) (λ _. ⊥)) (λ _. ⊥)) }
{
    let (s, t) = both(s, t)?;
    boxed(alloc, Term::Cat(s, t))
}

fn equal(
    alloc: Global,
    s: Result<Boxed<Term>, NoMemory>,
    t: Result<Boxed<Term>, NoMemory>,
) -> Result<Boxed<Term>, NoMemory>
    ensures { IfOk result (λ r. MatchResult s (λ a. MatchResult t (λ b. r ≡ spec.equal a b) (λ _. ⊥)) (λ _. ⊥)) }
{
    let (s, t) = both(s, t)?;
    boxed(alloc, Term::Eq(s, t))
}

fn part(
    alloc: Global,
    i: Result<Boxed<Term>, NoMemory>,
    j: Result<Boxed<Term>, NoMemory>,
    s: Result<Boxed<Term>, NoMemory>,
) -> Result<Boxed<Term>, NoMemory>
    ensures { IfOk result (λ r. MatchResult i (λ a. MatchResult j (λ b. MatchResult s (λ c. r ≡ spec.part a b c) (λ _. ⊥)) (λ _. ⊥)) (λ _. ⊥)) }
{
    let ((i, j), s) = both(both(i, j), s)?;
    boxed(alloc, Term::Part(i, j, s))
}
