//! The words that make terms and declare variables: `Z`, `B` and `S` declare the next variable, of numbers, of truth values or of
//! strings of numbers. A number, `v1`, `true`, `min_int`, `empty` and the like are terms. `add` makes a sum of the latest two terms, and
//! so on; `part` takes three, `tuple:N` the latest N, `proj:K` and `initial:K` one. `times:N` puts the latest term again until it stands
//! N times, and `ands:N` makes a conjunction of the latest two, N times.

use crate::board::{Board, unbounded};
use crate::lists::{on_heap, put};
use crate::trouble::Trouble;
use crate::words::{count, parsed};
use math_terms::{Binary, Boxed, NoMemory, Shape, Term, Unary};
use std::alloc::Global;

fn leaf(name: &str) -> Option<Term> {
    match name {
        "true" => Some(Term::Truth(true)),
        "false" => Some(Term::Truth(false)),
        "min_int" => Some(Term::MinInt),
        "max_int" => Some(Term::MaxInt),
        "empty" => Some(Term::Empty),
        _ => variable_or_number(name),
    }
}

fn variable_or_number(name: &str) -> Option<Term> {
    match name.strip_prefix("v") {
        Some(k) => Some(Term::Var(parsed::<u32>(k).ok()?)),
        None => Some(Term::Num(parsed::<i64>(name).ok()?)),
    }
}

fn unary(name: &str) -> Option<Unary> {
    match name {
        "len" => Some(Unary::Len),
        "single" => Some(Unary::Single),
        "reverse" => Some(Unary::Reverse),
        "not" => Some(Unary::Not),
        _ => None,
    }
}

fn binary(name: &str) -> Option<Binary> {
    match name {
        "add" => Some(Binary::Add),
        "sub" => Some(Binary::Sub),
        "mul" => Some(Binary::Mul),
        "div" => Some(Binary::Div),
        "mod" => Some(Binary::Mod),
        "cat" => Some(Binary::Cat),
        "eq" => Some(Binary::Eq),
        "less" => Some(Binary::Less),
        "lesseq" => Some(Binary::LessEq),
        "and" => Some(Binary::And),
        "or" => Some(Binary::Or),
        "implies" => Some(Binary::Implies),
        _ => None,
    }
}

// A variable of strings of numbers.
fn strings(alloc: Global) -> Result<Shape, NoMemory> {
    Ok(Shape::Str(Boxed::new(alloc, unbounded(Shape::Z))?))
}

impl Board {
    fn declare_string(&mut self) -> Result<(), Trouble> {
        let shape = strings(self.alloc)?;
        self.declare(shape)
    }

    /// Whether the word declares a variable, which is done.
    pub fn declares(&mut self, name: &str) -> Result<bool, Trouble> {
        let done = match name {
            "Z" => self.declare(Shape::Z),
            "B" => self.declare(Shape::B),
            "S" => self.declare_string(),
            _ => return Ok(false),
        };
        done?;
        Ok(true)
    }

    // A term of the latest two.
    fn make_two(&mut self, head: Binary) -> Result<(), Trouble> {
        let b = self.take()?;
        let a = self.take()?;
        self.put(Term::two(head, a, b))
    }

    fn make_part(&mut self) -> Result<(), Trouble> {
        let s = self.take()?;
        let j = self.take()?;
        let i = self.take()?;
        self.put(Term::Part(i, j, s))
    }

    // The latest term once more.
    fn again(&mut self) -> Result<(), Trouble> {
        let copied = on_heap(self.alloc, self.latest()?.copy(self.alloc));
        put(&mut self.terms, copied)
    }

    // The latest term until it stands so many times.
    fn repeat(&mut self, times: u32) -> Result<(), Trouble> {
        for _ in 1..times {
            self.again()?;
        }
        Ok(())
    }

    // A conjunction of the latest two terms, so many times.
    fn conjoin(&mut self, steps: u32) -> Result<(), Trouble> {
        for _ in 0..steps {
            self.make_two(Binary::And)?;
        }
        Ok(())
    }

    fn make_tuple(&mut self, parts: usize) -> Result<(), Trouble> {
        let parts = self.latest_terms(parts)?;
        self.put(Term::Tuple(parts))
    }

    fn make_projection(&mut self, k: u32) -> Result<(), Trouble> {
        let t = self.take()?;
        self.put(Term::Proj(k, t))
    }

    fn make_initial(&mut self, k: u32) -> Result<(), Trouble> {
        let t = self.take()?;
        self.put(Term::Initial(k, t))
    }

    // Whether the word makes a term with a number, which is done.
    fn makes_with_number(&mut self, name: &str, rest: &str) -> Result<bool, Trouble> {
        let n = match count(rest) {
            Ok(n) => n,
            Err(_) => return Ok(false),
        };
        let done = match name {
            "tuple" => self.make_tuple(n as usize),
            "proj" => self.make_projection(n),
            "initial" => self.make_initial(n),
            "times" => self.repeat(n),
            "ands" => self.conjoin(n),
            _ => return Ok(false),
        };
        done?;
        Ok(true)
    }

    // A term of the latest one.
    fn make_one(&mut self, head: Unary) -> Result<(), Trouble> {
        let a = self.take()?;
        self.put(Term::one(head, a))
    }

    // Whether the word makes a term of others, which is done.
    fn makes_of_others(&mut self, name: &str) -> Result<bool, Trouble> {
        let done = match unary(name) {
            Some(head) => self.make_one(head),
            None => match binary(name) {
                Some(head) => self.make_two(head),
                None => match name {
                    "part" => self.make_part(),
                    _ => return Ok(false),
                },
            },
        };
        done?;
        Ok(true)
    }

    // Whether the word is a term, which is put.
    fn makes_leaf(&mut self, name: &str) -> Result<bool, Trouble> {
        match leaf(name) {
            Some(t) => {
                self.put(t)?;
                Ok(true)
            }
            None => Ok(false),
        }
    }

    /// Whether the word makes a term, which is done.
    pub fn makes(&mut self, name: &str, rest: &str) -> Result<bool, Trouble> {
        if self.makes_of_others(name)? {
            return Ok(true);
        }
        if self.makes_leaf(name)? {
            return Ok(true);
        }
        self.makes_with_number(name, rest)
    }
}
