//! Where statements are not of the form: what they are, and how many.

ghost use Rattle.std.specs.Prelude.{◌≡◌, map};
ghost use Rattle.main_form.specs.Places as spec;
ghost use Rattle.main_form.specs.Places.{body_first, stmt_first, stmt_room};

use crate::expressions::{Wanted, all_first, earlier, expr_first, stands};
use crate::names::same_bytes;
use crate::room::Room;
use math_terms::Name;
use res_ast::{Procedure, Stmt};

// Whether a call is `Read` or `Write`.
fn is_stream_call(facility: &Option<Name>, name: &Name) -> bool
    ensures { result ≡ spec.is_stream_call facility.now name.now }
{
    match facility {
        Some(_) => false,
        None => same_bytes(name.bytes(), b"Read") || same_bytes(name.bytes(), b"Write"),
    }
}

// The first place of a statement at which it is not of the form.
#[cycle(statement)]
fn stmt_first(main: &Procedure, x: &Stmt) -> Option<u32>
    ensures { result ≡ stmt_first main.now x.now }
{
    match x {
        Stmt::Swap(at, _, _) => Some(*at),
        Stmt::Assign(at, place, e) => {
            let parts = expr_first(main, e, Wanted::Program);
            stands(place.field.is_none(), *at, parts)
        }
        Stmt::Call(at, facility, name, args) => {
            let parts = all_first(main, args.as_slice());
            stands(is_stream_call(facility, name), *at, parts)
        }
        Stmt::If(_, guard, a, b) => {
            let blocks = earlier(
                stmts_first(main, a.as_slice()),
                stmts_first(main, b.as_slice()),
            );
            earlier(expr_first(main, guard, Wanted::Program), blocks)
        }
        Stmt::While(at, _, _, _, _, _) => Some(*at),
    }
}

#[cycle(statement)]
fn stmts_first(main: &Procedure, stmts: &[Stmt]) -> Option<u32>
    ensures { result ≡ spec.earliest (map (stmt_first main.now) stmts.now) }
{
    let mut first = None;
    for x in stmts {
        first = earlier(first, stmt_first(main, x));
    }
    first
}

// The statements as they come, an If before those inside it.
#[cycle(count)]
fn count_stmt(x: &Stmt, room: &mut Room)
    ensures { room.new ≡ stmt_room x.now room.old }
{
    match x {
        Stmt::Swap(at, _, _) => room.take(*at),
        Stmt::Assign(at, _, _) => room.take(*at),
        Stmt::Call(at, _, _, _) => room.take(*at),
        Stmt::If(at, _, a, b) => {
            room.take(*at);
            count_stmts(a.as_slice(), room);
            count_stmts(b.as_slice(), room);
        }
        Stmt::While(at, _, _, _, _, body) => {
            room.take(*at);
            count_stmts(body.as_slice(), room);
        }
    }
}

#[cycle(count)]
fn count_stmts(stmts: &[Stmt], room: &mut Room)
    ensures { room.new ≡ spec.one_by_one (map stmt_room stmts.now) room.old }
{
    for x in stmts {
        count_stmt(x, room);
    }
}

// The statement after the 64th.
fn stmt_over(stmts: &[Stmt]) -> Option<u32>
    ensures { result ≡ (spec.one_by_one (map stmt_room stmts.now) spec.room_for_64).over }
{
    let mut room = Room::for_64();
    count_stmts(stmts, &mut room);
    room.over
}

/// The first place of Main's statements at which they are not of the form.
pub(crate) fn body_first(main: &Procedure, body: &[Stmt]) -> Option<u32>
    ensures { result ≡ body_first main.now body.now }
{
    earlier(stmts_first(main, body), stmt_over(body))
}
