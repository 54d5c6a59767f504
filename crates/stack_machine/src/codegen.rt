//! From a linked program to its code.

ghost use Rattle.std.specs.Prelude.{◌≡◌, ◌<◌, ◌≤◌, ◌+◌, ◌^◌, [], ◌∷◌, ◌++◌, false, IfErr, IfOk, List, OnOk, length, slice_set, ℤ};
ghost use Rattle.stack_machine.specs.Code.{body_code, code_of, expr_code, init_code, op_code, proc_code, stmt_code};
ghost use Rattle.stack_machine.specs.Refusal.{Emitted, IsCodeRefusal, most_instructions};
ghost use Rattle.stack_machine.specs.Simulation.{Simulates};
ghost use Rattle.source_meaning.specs.Formed.{IsFormed};
ghost use Rattle.source_meaning.specs.declared.linked.Proc.{Proc};
ghost use Rattle.stack_machine.specs.declared.image.Instr.{Instr};

use crate::image::{Image, Instr, ProcInfo};
use math_terms::NoMemory;
use source_meaning::{BinOp, LExpr, LStmt, Linked, Proc, Spot, TypeForm};
use sqlite_items::Items;
use std::alloc::Global;

/// Why a program has no code: it would have more than 65,536 instructions, or memory ran out.
#[derive(Clone, Copy, Debug, PartialEq, Eq)]
pub enum CodeError {
    CodeTooLong,
    NoMemory,
}

// The most instructions of a program.
const MOST_INSTRUCTIONS: usize = 65_536;

// One more instruction.
fn put(code: &mut Vec<Instr>, instr: Instr) -> Result<(), CodeError>
    requires { length code.old.items ≤ most_instructions }
    ensures { Emitted code.old.items code.new.items (instr ∷ []) result }
{
    if code.len() >= MOST_INSTRUCTIONS {
        return Err(CodeError::CodeTooLong);
    }
    match code.push(instr) {
        Ok(()) => Ok(()),
        Err(_) => Err(CodeError::NoMemory),
    }
}

// The instructions of an operator.
fn emit_operator(code: &mut Vec<Instr>, operator: BinOp) -> Result<(), CodeError>
    requires { length code.old.items ≤ most_instructions }
    ensures { Emitted code.old.items code.new.items (op_code operator) result }
{
    match operator {
        BinOp::Add => put(code, Instr::Add),
        BinOp::Sub => put(code, Instr::Sub),
        BinOp::Eq => put(code, Instr::Eq),
        BinOp::NotEq => put_negated(code, Instr::Eq),
        BinOp::Less => put(code, Instr::Less),
        BinOp::LessEq => put(code, Instr::LessEq),
        BinOp::Greater => put_negated(code, Instr::LessEq),
        BinOp::GreaterEq => put_negated(code, Instr::Less),
        BinOp::And => put(code, Instr::And),
        BinOp::Or => put(code, Instr::Or),
    }
}

// An instruction, and that its truth value is turned round.
fn put_negated(code: &mut Vec<Instr>, instr: Instr) -> Result<(), CodeError>
    requires { length code.old.items ≤ most_instructions }
    ensures { Emitted code.old.items code.new.items (instr ∷ Instr.Not ∷ []) result }
{
    put(code, instr)?;
    put(code, Instr::Not)
}

// The instructions of an expression.
fn emit_expression(code: &mut Vec<Instr>, expression: &LExpr) -> Result<(), CodeError>
    requires { length code.old.items ≤ most_instructions }
    ensures { Emitted code.old.items code.new.items (expr_code expression.now) result }
{
    match expression {
        LExpr::Const(scalar) => put(code, Instr::Push(*scalar)),
        LExpr::Get(spot) => put(code, Instr::Load(*spot)),
        LExpr::Remaining => put(code, Instr::Remaining),
        LExpr::Not(a) => {
            emit_expression(code, a.get())?;
            put(code, Instr::Not)
        }
        LExpr::Op(operator, a, b) => {
            emit_expression(code, a.get())?;
            emit_expression(code, b.get())?;
            emit_operator(code, *operator)
        }
    }
}

// The instructions of an expression, and one that takes its value.
fn emit_use(code: &mut Vec<Instr>, expression: &LExpr, instr: Instr) -> Result<(), CodeError>
    requires { length code.old.items ≤ most_instructions }
    ensures { Emitted code.old.items code.new.items (expr_code expression.now ++ instr ∷ []) result }
{
    emit_expression(code, expression)?;
    put(code, instr)
}

// The guard of a choice, and the jump past its then part, whose target is not known yet. Answers the jump's address.
fn emit_guard(code: &mut Vec<Instr>, guard: &LExpr) -> Result<usize, CodeError>
    requires { length code.old.items ≤ most_instructions }
    ensures emitted { Emitted code.old.items code.new.items (expr_code guard.now ++ Instr.JumpFalse 0 ∷ []) result }
    ensures place { IfOk result (λ place. place + 1 ≡ length code.new.items) }
{
    emit_use(code, guard, Instr::JumpFalse(0))?;
    Ok(code.len() - 1)
}

// The jump from the end of a then part, whose target is not known yet. Answers its address.
fn emit_turn(code: &mut Vec<Instr>) -> Result<usize, CodeError>
    requires { length code.old.items ≤ most_instructions }
    ensures emitted { Emitted code.old.items code.new.items (Instr.Jump 0 ∷ []) result }
    ensures place { IfOk result (λ place. place ≡ length code.old.items) }
{
    let place = code.len();
    put(code, Instr::Jump(0))?;
    Ok(place)
}

// Writes a jump whose target is the end of the code.
fn aim_false(code: &mut Vec<Instr>, place: usize)
    requires within { place < length code.old.items }
    requires few { length code.old.items ≤ most_instructions }
    ensures { code.new.items ≡ slice_set code.old.items place (Instr.JumpFalse (length code.old.items)) }
{
    code[place] = Instr::JumpFalse(code.len() as u32);
}

// The same for a jump that is always taken.
fn aim(code: &mut Vec<Instr>, place: usize)
    requires within { place < length code.old.items }
    requires few { length code.old.items ≤ most_instructions }
    ensures { code.new.items ≡ slice_set code.old.items place (Instr.Jump (length code.old.items)) }
{
    code[place] = Instr::Jump(code.len() as u32);
}

// The instructions of a statement.
#[cycle(emit)]
fn emit_statement(code: &mut Vec<Instr>, statement: &LStmt) -> Result<(), CodeError>
    requires { length code.old.items ≤ most_instructions }
    ensures { Emitted code.old.items code.new.items (stmt_code statement.now (length code.old.items)) result }
{
    match statement {
        LStmt::LSet(spot, value) => emit_use(code, value, Instr::Store(*spot)),
        LStmt::LRead(spot) => put(code, Instr::ReadIn(*spot)),
        LStmt::LWrite(value) => emit_use(code, value, Instr::WriteOut),
        LStmt::LIf(guard, first, second) => {
            let guard_end = emit_guard(code, guard)?;
            emit_statements(code, first)?;
            if second.is_empty() {
                aim_false(code, guard_end);
                return Ok(());
            }
            let first_end = emit_turn(code)?;
            aim_false(code, guard_end);
            emit_statements(code, second)?;
            aim(code, first_end);
            Ok(())
        }
    }
}

// Statements one after another.
#[cycle(emit)]
fn emit_statements(code: &mut Vec<Instr>, statements: &Items<LStmt>) -> Result<(), CodeError>
    requires { length code.old.items ≤ most_instructions }
    ensures { Emitted code.old.items code.new.items (body_code statements.now (length code.old.items)) result }
{
    for statement in statements.as_slice() {
        emit_statement(code, statement)?;
    }
    Ok(())
}

// The variables from this number on, each made with its type.
fn emit_variables(code: &mut Vec<Instr>, types: &Items<u32>) -> Result<(), CodeError>
    requires { length code.old.items ≤ most_instructions }
    ensures { Emitted code.old.items code.new.items (init_code 0 types.now) result }
{
    for (number, type_number) in types.as_slice().iter().enumerate() {
        put(code, Instr::Init(Spot::Local(number as u32), *type_number))?;
    }
    Ok(())
}

// The instructions of a procedure.
fn emit_procedure(code: &mut Vec<Instr>, procedure: &Proc) -> Result<(), CodeError>
    requires { code.old.items ≡ [] }
    ensures { Emitted code.old.items code.new.items (proc_code procedure.now) result }
{
    emit_variables(code, &procedure.locals)?;
    emit_statements(code, &procedure.body)?;
    put(code, Instr::Return)
}

// A second form of a type.
fn copy_form(alloc: Global, form: &TypeForm) -> Result<TypeForm, NoMemory>
    ensures { IfOk result (λ copy. copy ≡ form.now) }
{
    match form {
        TypeForm::Int => Ok(TypeForm::Int),
        TypeForm::Bool => Ok(TypeForm::Bool),
        TypeForm::Array(size, entry) => Ok(TypeForm::Array(*size, *entry)),
        TypeForm::Record(instance, fields) => match Items::from_slice(alloc, fields.as_slice()) {
            Ok(fields) => Ok(TypeForm::Record(*instance, fields)),
            Err(_) => Err(NoMemory),
        },
    }
}

// The forms of the same types.
fn copy_forms(alloc: Global, forms: &Items<TypeForm>) -> Result<Items<TypeForm>, NoMemory>
    ensures { IfOk result (λ copy. copy ≡ forms.now) }
{
    let mut copies = Items::new(alloc);
    for form in forms.as_slice() {
        let copy = copy_form(alloc, form)?;
        if copies.push(copy).is_err() {
            return Err(NoMemory);
        }
    }
    Ok(copies)
}

// What an image says of Main.
fn copy_heading(alloc: Global, main: &Proc) -> Result<Items<ProcInfo>, NoMemory>
    requires { length main.now.locals < 2 ^ 32 }
    ensures { IfOk result (λ procs. procs ≡ record { name = main.now.operation; start = 0; given = []; result = false; locals = length main.now.locals } ∷ []) }
{
    let heading = ProcInfo {
        name: main.operation.copy(alloc)?,
        start: 0,
        given: Items::new(alloc),
        result: false,
        locals: main.locals.len() as u32,
    };
    let mut procs = Items::new(alloc);
    match procs.push(heading) {
        Ok(()) => Ok(procs),
        Err(_) => Err(NoMemory),
    }
}

// The image of a program whose one procedure is Main.
#[tactic(auto, using(crate::proofs::Patch::locals_few))]
fn compile_main(alloc: Global, l: &Linked, main: &Proc) -> Result<Image, CodeError>
    ensures code { IfOk result (λ image. image ≡ code_of l.now main.now) }
    ensures few { OnOk result (length (proc_code main.now) ≤ most_instructions) }
    ensures too_long { IfErr result (λ e. e ≡ CodeError.CodeTooLong → most_instructions < length (proc_code main.now)) }
{
    let mut code = Vec::new(alloc);
    emit_procedure(&mut code, main)?;
    let Ok(types) = copy_forms(alloc, &l.types) else {
        return Err(CodeError::NoMemory);
    };
    let Ok(procs) = copy_heading(alloc, main) else {
        return Err(CodeError::NoMemory);
    };
    Ok(Image {
        types,
        procs,
        code: Items::from_vec(code),
        main: 0,
    })
}

/// The code of a formed program.
pub fn compile(alloc: Global, l: &Linked) -> Result<Image, CodeError>
    requires formed { (p : Proc) × IsFormed l.now p }
    ensures code { IfOk result (λ image. (p : Proc) → IsFormed l.now p → image ≡ code_of l.now p) }
    ensures simulates { IfOk result (λ image. (p : Proc) → IsFormed l.now p → (input : List ℤ) → Simulates l.now p image input) }
    ensures few { IfOk result (λ image. length image.code ≤ most_instructions) }
    ensures too_long { IfErr result (λ e. IsCodeRefusal e l.now) }
{
    let Some(main) = l.procs.get(0) else {
        unreachable!()
    };
    compile_main(alloc, l, main)
}
