//! Canonical texts are read again.
#![tactic(auto)]

ghost use Rattle.std.specs.Prelude.{◌≡◌, ℕ, List, true, false, map};
ghost use Rattle.std.specs.List.{AllByRecursion};
ghost use Rattle.res_ast.specs.declared.component.Component.{Component};
ghost use Rattle.res_ast.specs.declared.expression.Expr.{Expr};
ghost use Rattle.module_parser.specs.Spelling.{Spells};
ghost use Rattle.round_trip.specs.MinusZero.{has_minus_minus_zero};
ghost use Rattle.round_trip.specs.ReadsBack.{ReadsBack, ReadsBackAs, ReadsBackWhere};
ghost use Rattle.round_trip.specs.WellFormed.{well_formed};

use identifiers::identifier_laws;
use ll_grammar::made_is_derived;
use module_parser::State;
use res_grammar::one_derivation;
use res_lexer::{Token, reads_back, tokens_lie};

/// The canonical text of each expression that is well formed is read again as that expression, places aside. The call does nothing.
pub fn expressions_read_back()
    ensures { (x : Expr) → well_formed x ≡ true → ReadsBack x }
{
    identifier_laws();
    made_is_derived::<(Token, State), Token>();
}

/// The canonical text of each component that some file spells is a file that spells it again, places aside. That it is nested no
/// deeper than it may be is not said of files in which a literal 0 stands directly behind two minus signs. The call does nothing.
pub fn printed_reads_back()
    ensures at_any_depth { (bytes : List ℕ) (cs : List Component) (s : Spells bytes cs) → AllByRecursion (ReadsBackWhere (has_minus_minus_zero (map (λ t. t.kind) s.tokens) ≡ false)) cs }
    ensures in_full { (bytes : List ℕ) (cs : List Component) (s : Spells bytes cs) → has_minus_minus_zero (map (λ t. t.kind) s.tokens) ≡ false → AllByRecursion ReadsBackAs cs }
{
    identifier_laws();
    tokens_lie();
    reads_back();
    made_is_derived::<(Token, State), Token>();
    one_derivation();
}
