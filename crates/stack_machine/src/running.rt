//! The running frame, and what one instruction does to it.

ghost use Rattle.std.specs.Prelude.{◌≡◌, ◌<◌, ◌^◌, ◌+◌, ◌≤◌, IfOk, IsSome, List, OnOk, Some, drop, length, pos, slice_get, ℤ};
ghost use Rattle.source_meaning.specs.declared.linked.Scalar.{Scalar};
ghost use Rattle.stack_machine.specs.declared.image.Cell.{Cell};
ghost use Rattle.stack_machine.specs.declared.image.Image.{Image};
ghost use Rattle.stack_machine.specs.declared.image.Instr.{Instr};
ghost use Rattle.stack_machine.specs.declared.running.Effect.{Effect};
ghost use Rattle.stack_machine.specs.Machine.{cell_at, initial_cell, replaced, scalar_of, with_cell};
ghost use Rattle.stack_machine.specs.Running.{Acts, Begins, CanAct, CanStep, Steps, cell_of_scalar};
ghost use Rattle.stack_machine.specs.Runs.{HasMain};

use crate::image::{Cell, Image, Instr};
use crate::operands::Operands;
use crate::operators;
use math_terms::NoMemory;
use source_meaning::{Scalar, Spot, TypeForm};
use sqlite_items::Items;
use std::alloc::Global;

/// The frame of Main while it runs: the address of its next instruction, its locals and its operands, and how many
/// numbers of the input are taken.
#[derive(Drop)]
pub struct Running {
    pub place: usize,
    pub locals: Items<Cell>,
    pub operands: Operands,
    pub taken: usize,
}

/// What an instruction did beside changing the frame.
#[derive(Clone, Copy)]
pub enum Effect {
    Quiet,
    Wrote(i64),
    Returned,
}

// The scalar at a place.
fn load(locals: &Items<Cell>, spot: Spot) -> Scalar
    requires { IsSome (scalar_of (cell_at locals.now spot)) }
    ensures { scalar_of (cell_at locals.now spot) ≡ Some result }
{
    match spot {
        Spot::Local(number) => match locals.get(number as usize) {
            Some(Cell::Int(number)) => Scalar::Int(*number),
            Some(Cell::Bool(truth)) => Scalar::Bool(*truth),
            _ => unreachable!(),
        },
        Spot::Field(_, _) => unreachable!(),
    }
}

// Another cell at a place.
fn put(locals: &mut Items<Cell>, spot: Spot, cell: Cell)
    requires { IsSome (cell_at locals.old spot) }
    ensures { locals.new ≡ with_cell locals.old spot cell }
{
    match spot {
        Spot::Local(number) => locals.set(number as usize, cell),
        Spot::Field(_, _) => unreachable!(),
    }
}

// A scalar as what a local holds.
fn cell_of(scalar: Scalar) -> Cell
    ensures { result ≡ cell_of_scalar scalar }
{
    match scalar {
        Scalar::Int(number) => Cell::Int(number),
        Scalar::Bool(truth) => Cell::Bool(truth),
    }
}

// A scalar replaces one of its kind.
fn store(locals: &mut Items<Cell>, spot: Spot, scalar: Scalar)
    requires { IsSome (replaced (cell_at locals.old spot) scalar) }
    ensures cell { replaced (cell_at locals.old spot) scalar ≡ Some (cell_of_scalar scalar) }
    ensures locals { locals.new ≡ with_cell locals.old spot (cell_of_scalar scalar) }
{
    put(locals, spot, cell_of(scalar));
}

// What a local of a type holds at first.
fn initial(types: &Items<TypeForm>, number: u32) -> Cell
    requires { IsSome (initial_cell (Some Cell.Hole) (slice_get types.now number)) }
    ensures { initial_cell (Some Cell.Hole) (slice_get types.now number) ≡ Some result }
{
    match types.get(number as usize) {
        Some(TypeForm::Int) => Cell::Int(0),
        Some(TypeForm::Bool) => Cell::Bool(false),
        _ => unreachable!(),
    }
}

impl Running {
    // On to the next instruction.
    fn onward(&mut self) -> Effect
        requires { self.old.place + 1 < 2 ^ 64 }
        ensures quiet { result ≡ Effect.Quiet }
        ensures place { self.new ≡ record self.old { place = self.old.place + 1 } }
    {
        self.place += 1;
        Effect::Quiet
    }

    // Takes an operand and goes on at an address where it is false. What it does is the same for every image and input.
    fn branch(&mut self, to: u32) -> Effect
        requires room { self.old.place + 1 < 2 ^ 64 }
        requires can { (image : Image) × (input : List ℤ) × CanAct image input self.old (Instr.JumpFalse to) }
        ensures acts { (image : Image) (input : List ℤ) → CanAct image input self.old (Instr.JumpFalse to) → Acts image input self.old self.new (Instr.JumpFalse to) result }
        ensures taken { self.new.taken ≡ self.old.taken }
    {
        if operators::truth(&mut self.operands) {
            self.onward()
        } else {
            self.place = to as usize;
            Effect::Quiet
        }
    }

    // Takes an operand and puts it at a place, for every image and input.
    fn settle(&mut self, spot: Spot) -> Effect
        requires room { self.old.place + 1 < 2 ^ 64 }
        requires can { (image : Image) × (input : List ℤ) × CanAct image input self.old (Instr.Store spot) }
        ensures acts { (image : Image) (input : List ℤ) → CanAct image input self.old (Instr.Store spot) → Acts image input self.old self.new (Instr.Store spot) result }
        ensures taken { self.new.taken ≡ self.old.taken }
    {
        let Some(scalar) = self.operands.pop() else {
            unreachable!()
        };
        store(&mut self.locals, spot, scalar);
        self.onward()
    }

    // Makes a local with a type, for every image with these types.
    fn make(&mut self, types: &Items<TypeForm>, spot: Spot, number: u32) -> Effect
        requires room { self.old.place + 1 < 2 ^ 64 }
        requires can { (image : Image) × (input : List ℤ) × (image.types ≡ types.now) × CanAct image input self.old (Instr.Init spot number) }
        ensures acts { (image : Image) (input : List ℤ) → image.types ≡ types.now → CanAct image input self.old (Instr.Init spot number) → Acts image input self.old self.new (Instr.Init spot number) result }
        ensures taken { self.new.taken ≡ self.old.taken }
    {
        put(&mut self.locals, spot, initial(types, number));
        self.onward()
    }

    // Takes a number of the input and puts it at a place.
    fn read(&mut self, input: &[i64], spot: Spot) -> Effect
        requires room { self.old.place + 1 < 2 ^ 64 }
        requires can { (image : Image) × CanAct image input.now self.old (Instr.ReadIn spot) }
        ensures acts { (image : Image) → CanAct image input.now self.old (Instr.ReadIn spot) → Acts image input.now self.old self.new (Instr.ReadIn spot) result }
        ensures taken { self.new.taken ≤ length input.now }
    {
        let Some(number) = input.get(self.taken) else {
            unreachable!()
        };
        store(&mut self.locals, spot, Scalar::Int(*number));
        self.taken += 1;
        self.onward()
    }

    // Takes an operand, which is written, for every image and input.
    fn write(&mut self) -> Effect
        requires room { self.old.place + 1 < 2 ^ 64 }
        requires can { (image : Image) × (input : List ℤ) × CanAct image input self.old Instr.WriteOut }
        ensures acts { (image : Image) (input : List ℤ) → CanAct image input self.old Instr.WriteOut → Acts image input self.old self.new Instr.WriteOut result }
        ensures taken { self.new.taken ≡ self.old.taken }
    {
        let number = operators::number(&mut self.operands);
        self.place += 1;
        Effect::Wrote(number)
    }

    // How many numbers of the input are left.
    fn remaining(&self, input: &[i64]) -> i64
        requires { self.now.taken ≤ length input.now }
        ensures { result ≡ pos (length (drop self.now.taken input.now)) }
    {
        (input.len() - self.taken) as i64
    }

    // One instruction.
    fn perform(&mut self, image: &Image, input: &[i64], instr: Instr) -> Result<Effect, NoMemory>
        requires room { self.old.place + 1 < 2 ^ 64 }
        requires taken { self.old.taken ≤ length input.now }
        requires can { CanAct image.now input.now self.old instr }
        ensures acts { IfOk result (λ effect. Acts image.now input.now self.old self.new instr effect) }
        ensures taken { OnOk result (self.new.taken ≤ length input.now) }
    {
        match instr {
            Instr::Push(scalar) => {
                self.operands.push(scalar)?;
                Ok(self.onward())
            }
            Instr::Load(spot) => {
                let scalar = load(&self.locals, spot);
                self.operands.push(scalar)?;
                Ok(self.onward())
            }
            Instr::Store(spot) => Ok(self.settle(spot)),
            Instr::Jump(to) => {
                self.place = to as usize;
                Ok(Effect::Quiet)
            }
            Instr::JumpFalse(to) => Ok(self.branch(to)),
            Instr::Init(spot, number) => Ok(self.make(&image.types, spot, number)),
            Instr::Return => Ok(Effect::Returned),
            Instr::ReadIn(spot) => Ok(self.read(input, spot)),
            Instr::Remaining => {
                let left = self.remaining(input);
                self.operands.push(Scalar::Int(left))?;
                Ok(self.onward())
            }
            Instr::WriteOut => Ok(self.write()),
            Instr::Add
            | Instr::Sub
            | Instr::Eq
            | Instr::Less
            | Instr::LessEq
            | Instr::Not
            | Instr::And
            | Instr::Or => {
                operators::operate(&mut self.operands, instr)?;
                Ok(self.onward())
            }
        }
    }

    /// Where the run is not stuck, the instruction at the frame's place, and what it did.
    pub fn step(&mut self, image: &Image, input: &[i64]) -> Result<Effect, NoMemory>
        requires taken { self.old.taken ≤ length input.now }
        requires can { CanStep image.now input.now self.old }
        ensures steps { IfOk result (λ effect. Steps image.now input.now self.old self.new effect) }
        ensures taken { OnOk result (self.new.taken ≤ length input.now) }
    {
        let code = image.code.as_slice();
        self.perform(image, input, code[self.place])
    }

    /// The frame of Main at its start.
    pub fn new(alloc: Global, image: &Image) -> Result<Running, NoMemory>
        requires { HasMain image.now }
        ensures begins { IfOk result (λ r. Begins image.now r) }
        ensures taken { IfOk result (λ r. r.taken ≡ 0) }
    {
        let Some(main) = image.procs.get(image.main as usize) else {
            unreachable!()
        };
        match vec![in alloc; Cell::Hole; main.locals as usize] {
            Ok(locals) => Ok(Running {
                place: main.start as usize,
                locals: Items::from_vec(locals),
                operands: Operands::new(alloc),
                taken: 0,
            }),
            Err(_) => Err(NoMemory),
        }
    }
}
