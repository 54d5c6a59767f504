//! Laws of the machine, for proofs over every run.

ghost use Rattle.std.specs.Prelude.{◌≡◌, ◌≤◌, [], List, Some, ℕ, ℤ};
ghost use Rattle.stack_machine.specs.Machine.{State, after};
ghost use Rattle.stack_machine.specs.Code.{code_of};
ghost use Rattle.stack_machine.specs.Simulation.{IsFront, Simulates};
ghost use Rattle.source_meaning.specs.Formed.{IsFormed};
ghost use Rattle.source_meaning.specs.declared.linked.Linked.{Linked};
ghost use Rattle.source_meaning.specs.declared.linked.Proc.{Proc};
ghost use Rattle.stack_machine.specs.declared.image.Image.{Image};

/// A state with no frame stays.
#[tactic(auto, using(crate::proofs::Going::halted_stays_lem))]
pub fn halted_stays()
    ensures { (image : Image) (input : List ℤ) (m n : ℕ) (s : State) → m ≤ n → after image input m ≡ Some s → s.frames ≡ [] → after image input n ≡ Some s }
{}

/// More steps only append to the output.
#[tactic(auto, using(crate::proofs::Going::after_front))]
pub fn output_grows()
    ensures { (image : Image) (input : List ℤ) (m n : ℕ) (s t : State) → m ≤ n → after image input m ≡ Some s → after image input n ≡ Some t → IsFront s.output t.output }
{}

/// The code of a formed program does what the program means.
pub fn code_simulates()
    ensures { (l : Linked) (p : Proc) → IsFormed l p → (input : List ℤ) → Simulates l p (code_of l p) input }
{}
