//! Where Main's claim is not of the form: what it says, and how many operands it has.

ghost use Rattle.std.specs.Prelude.{◌≡◌};
ghost use Rattle.main_form.specs.Places.{claim_first, counted};

use crate::expressions::{Wanted, earlier, expr_first};
use crate::room::Room;
use res_ast::{BinOp, Expr, Form, Procedure};

// The operands of a chain, as they come.
#[cycle(operands)]
fn count_operands(e: &Expr, room: &mut Room)
    ensures { room.new ≡ (counted e.now).operands room.old }
{
    match &e.form {
        Form::Binary(BinOp::Cat, a, b) => {
            count_operands(a.get(), room);
            room.take(b.get().at);
        }
        _ => room.take(e.at),
    }
}

// The operand after the 64th of a claim of the output.
fn operand_over(e: &Expr) -> Option<u32>
    ensures { result ≡ (counted e.now).over }
{
    match &e.form {
        Form::Binary(BinOp::Eq, _, b) => {
            let mut room = Room::for_64();
            count_operands(b.get(), &mut room);
            room.over
        }
        _ => None,
    }
}

/// The first place of a claim at which it is not of the form.
pub(crate) fn claim_first(main: &Procedure, e: &Expr) -> Option<u32>
    ensures { result ≡ claim_first main.now e.now }
{
    earlier(expr_first(main, e, Wanted::Claim), operand_over(e))
}
