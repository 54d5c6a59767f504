//! The words that copy values of the small types and say what the copies are: `sorts` the sorts of the variables, `value:N,..` a
//! string of numbers, `name:BYTES`, `condition` that of the sequent of all terms, and `certificate` the steps; `form` says the form of the
//! latest term, with its number, its number of children and its strength, and `form_of:N` the form of a number.

use crate::board::Board;
use crate::lists::{on_heap, put};
use crate::saying::{say, say_bytes, say_number, say_sorts, say_truth};
use crate::sequents::say_steps;
use crate::texts::say_condition;
use crate::trouble::Trouble;
use crate::words::{count, parsed_list};
use cert_form::{Cert, NamedCert};
use math_terms::{
    Boxed, Desc, Form, Name, NoMemory, Sort, Value, VcName, copy_sorts, copy_values, with,
};
use sqlite_items::Items;
use std::alloc::Global;
use vc_sequents::{Sequent, Vc, VcKind};

fn name_of_number(alloc: Global, number: u32) -> Result<VcName, NoMemory> {
    let component = Name::new(alloc, b"Queue")?;
    let part = Name::new(alloc, b"Swap")?;
    Ok(VcName {
        component,
        part,
        number,
    })
}

fn values(alloc: Global, rest: &str) -> Result<Items<Value>, Trouble> {
    let mut out = Items::new(alloc);
    for n in parsed_list::<i64>(alloc, rest)?.as_slice() {
        out.push(Value::Num(i128::from(*n)))?;
    }
    Ok(out)
}

// Whether the copy of a string of numbers is the same.
fn say_value(alloc: Global, said: &mut String, rest: &str) -> Result<(), Trouble> {
    let entries = values(alloc, rest)?;
    let copied = Value::Str(copy_values(alloc, entries.as_slice())?);
    let value = Value::Str(entries);
    say_truth(said, value.same(&copied))
}

fn say_copied_name(alloc: Global, said: &mut String, rest: &str) -> Result<(), Trouble> {
    let name = Name::new(alloc, rest.as_bytes())?;
    let copied = name.copy(alloc)?;
    say_bytes(said, copied.bytes())?;
    say_truth(said, copied.same(&name))
}

fn say_form(said: &mut String, form: Form) -> Result<(), Trouble> {
    write!(said, " {form:?}")?;
    say_number(said, i64::from(form.number()))?;
    match form.arity() {
        Some(children) => say_number(said, i64::from(children))?,
        None => say(said, "any")?,
    }
    say_number(said, i64::from(form.strength()))
}

fn say_form_of(said: &mut String, rest: &str) -> Result<(), Trouble> {
    let number = count(rest)?;
    match Form::from_number(number.min(255) as u8) {
        Some(form) => say_form(said, form),
        None => say(said, "none"),
    }
}

// The sort of a copy of a descriptor.
fn copied_sort(alloc: Global, desc: &Desc) -> Result<Sort, NoMemory> {
    let copied = on_heap(alloc, desc.copy(alloc))?;
    copied.get().sort(alloc)
}

fn condition(name: VcName, sequent: Boxed<Sequent>) -> Vc {
    Vc {
        name,
        kind: VcKind::Ensures,
        at: 7,
        sequent: sequent.into_inner(),
    }
}

// A condition of a sequent.
fn named_condition(alloc: Global, sequent: Boxed<Sequent>) -> Result<Boxed<Vc>, NoMemory> {
    let (name, sequent) = with(name_of_number(alloc, 1), sequent)?;
    Ok(Boxed::new(alloc, condition(name, sequent))?)
}

// The copy of a certificate with its name.
fn copied_cert(alloc: Global, cert: Cert) -> Result<Boxed<NamedCert>, NoMemory> {
    let (name, cert) = with(name_of_number(alloc, 3), cert)?;
    on_heap(alloc, NamedCert { name, cert }.copy(alloc))
}

fn say_cert(said: &mut String, cert: &NamedCert) -> Result<(), Trouble> {
    say_number(said, i64::from(cert.name.number))?;
    say_steps(said, cert.cert.steps.as_slice())
}

impl Board {
    // The sorts of copies of the variables' descriptors.
    fn copied_sorts(&self) -> Result<Items<Sort>, Trouble> {
        let mut sorts = Items::new(self.alloc);
        for v in self.variables.as_slice() {
            put(&mut sorts, copied_sort(self.alloc, &v.1))?;
        }
        Ok(sorts)
    }

    // The sorts of copies of the variables' descriptors, copied.
    fn say_sorts(&self, said: &mut String) -> Result<(), Trouble> {
        let sorts = self.copied_sorts()?;
        let copied = copy_sorts(self.alloc, sorts.as_slice())?;
        say_sorts(said, copied.as_slice())
    }

    // A copy of a condition of the terms' sequent.
    fn say_vc(&mut self, said: &mut String) -> Result<(), Trouble> {
        let sequent = self.sequent()?;
        let vc = named_condition(self.alloc, sequent)?;
        let copied = on_heap(self.alloc, vc.get().copy(self.alloc))?;
        say_condition(self.alloc, said, copied.get())
    }

    // A copy of a certificate of the steps.
    fn say_certificate(&mut self, said: &mut String) -> Result<(), Trouble> {
        let cert = self.cert();
        let copied = copied_cert(self.alloc, cert)?;
        say_cert(said, copied.get())
    }

    fn say_form_of_latest(&self, said: &mut String) -> Result<(), Trouble> {
        let t = self.latest()?;
        say_form(said, t.form())
    }

    /// Whether the word copies a value, which is done.
    pub fn copies(&mut self, said: &mut String, name: &str, rest: &str) -> Result<bool, Trouble> {
        let done = match name {
            "sorts" => self.say_sorts(said),
            "value" => say_value(self.alloc, said, rest),
            "name" => say_copied_name(self.alloc, said, rest),
            "condition" => self.say_vc(said),
            "certificate" => self.say_certificate(said),
            "form" => self.say_form_of_latest(said),
            "form_of" => say_form_of(said, rest),
            _ => return Ok(false),
        };
        done?;
        Ok(true)
    }
}
