//! Names, clauses, types and headings.

ghost use Rattle.std.specs.Prelude.{◌≡◌, ◌++◌, ◌∷◌, None, IfOk, OnOk};
ghost use Rattle.res_grammar.specs.Classes.{word_of};
ghost use Rattle.expr_parser.specs.Actions.{added, kept, others};
ghost use Rattle.module_parser.specs.Headings.{add_formal, add_params, add_typed_names, heading_act, heading_of, params_of, result_type, signature, some_clause, type_alone, type_of_facility, type_word, typed};
ghost use Rattle.module_parser.specs.Stacks.{heading};

use crate::action::HeadingAction;
use crate::stacks::{open, put};
use crate::state::State;
use expr_parser::{Word, add_to, name_of, taken};
use ll_grammar::Stack;
use math_terms::{Name, NoMemory};
use res_ast::{Formal, Heading, Mode, PType, Param, TryCopy};
use res_lexer::Token;
use sqlite_items::Items;
use std::alloc::Global;

// Puts a parameter of this mode and type behind the others for each of the words.
#[tactic(auto, using(crate::proofs::Lists::put_before))]
fn put_params(
    alloc: Global,
    out: &mut Items<Param>,
    mode: Mode,
    ptype: &PType,
    words: Stack<Word>,
) -> Result<(), NoMemory>
    ensures { OnOk result (out.new ≡ out.old ++ params_of mode ptype.now words) }
{
    let mut left = words;
    while let Some(Word { at, name }) = left.pop() {
        out.push(Param {
            at,
            mode,
            name,
            ptype: ptype.copy(alloc)?,
        })?;
    }
    Ok(())
}

// Puts each of the words behind the others, with the type.
#[tactic(auto, using(crate::proofs::Lists::put_before))]
fn put_typed(
    alloc: Global,
    out: &mut Items<(Name, PType)>,
    ptype: &PType,
    words: Stack<Word>,
) -> Result<(), NoMemory>
    ensures { OnOk result (out.new ≡ out.old ++ typed ptype.now words) }
{
    let mut left = words;
    while let Some(Word { name, .. }) = left.pop() {
        out.push((name, ptype.copy(alloc)?))?;
    }
    Ok(())
}

// The last token as a type.
fn built_in(alloc: Global, last: &Token) -> Result<PType, NoMemory>
    ensures { IfOk result (λ t. t ≡ record { at = last.now.at; facility = None; name = word_of last.now.kind }) }
{
    Ok(PType {
        at: last.at,
        facility: None,
        name: name_of(alloc, last)?,
    })
}

impl State {
    fn put_type(&mut self, ptype: PType) -> Result<(), NoMemory>
        ensures { OnOk result (self.new ≡ record self.old { types = ptype ∷ self.old.types }) }
    {
        self.types.push(ptype)?;
        Ok(())
    }

    fn some_clause(&mut self) -> Result<(), NoMemory>
        ensures { OnOk result (self.new ≡ some_clause self.old) }
    {
        let clause = Some(self.take_expr());
        put(&mut self.clauses, clause)
    }

    fn add_params(&mut self, alloc: Global) -> Result<(), NoMemory>
        ensures { OnOk result (self.new ≡ add_params self.old) }
    {
        let words = self.take_words(alloc)?;
        let mode = taken(&mut self.modes, Mode::Updates);
        let ptype = self.take_type(alloc)?;
        let mut params = taken(&mut self.params, Items::new(alloc));
        put_params(alloc, &mut params, mode, &ptype, words)?;
        self.params.push(params)?;
        Ok(())
    }

    fn add_typed_names(&mut self, alloc: Global) -> Result<(), NoMemory>
        ensures { OnOk result (self.new ≡ add_typed_names self.old) }
    {
        let words = self.take_words(alloc)?;
        let ptype = self.take_type(alloc)?;
        let mut fields = taken(&mut self.fields, Items::new(alloc));
        put_typed(alloc, &mut fields, &ptype, words)?;
        self.fields.push(fields)?;
        Ok(())
    }

    fn type_alone(&mut self, alloc: Global) -> Result<(), NoMemory>
        ensures { OnOk result (self.new ≡ type_alone self.old) }
    {
        let Word { at, name } = self.take_word(alloc)?;
        self.put_type(PType {
            at,
            facility: None,
            name,
        })
    }

    fn type_of_facility(&mut self, alloc: Global, last: &Token) -> Result<(), NoMemory>
        ensures { OnOk result (self.new ≡ type_of_facility last.now self.old) }
    {
        let name = name_of(alloc, last)?;
        let facility = self.take_word(alloc)?;
        self.put_type(PType {
            at: facility.at,
            facility: Some(facility.name),
            name,
        })
    }

    fn type_word(&mut self, alloc: Global, last: &Token) -> Result<(), NoMemory>
        ensures { OnOk result (self.new ≡ type_word last.now self.old) }
    {
        let ptype = built_in(alloc, last)?;
        self.put_type(ptype)
    }

    fn result_type(&mut self, alloc: Global, last: &Token) -> Result<(), NoMemory>
        ensures { OnOk result (self.new ≡ result_type last.now self.old) }
    {
        let ptype = built_in(alloc, last)?;
        self.results.push(Some(ptype))?;
        Ok(())
    }

    fn heading(&mut self, alloc: Global) -> Result<(), NoMemory>
        ensures { OnOk result (self.new ≡ heading_of self.old) }
    {
        let Word { name, .. } = self.take_word(alloc)?;
        let Word { at, .. } = self.take_word(alloc)?;
        let params = taken(&mut self.params, Items::new(alloc));
        let result = taken(&mut self.results, None);
        let ensures_clause = self.take_clause();
        let requires_clause = self.take_clause();
        self.headings.push(Heading {
            at,
            name,
            params,
            result,
            requires_clause,
            ensures_clause,
        })?;
        Ok(())
    }

    fn signature(&mut self, alloc: Global) -> Result<(), NoMemory>
        ensures { OnOk result (self.new ≡ signature self.old) }
    {
        let Word { at, name } = self.take_word(alloc)?;
        let params = taken(&mut self.params, Items::new(alloc));
        let result = taken(&mut self.results, None);
        self.headings.push(Heading {
            at,
            name,
            params,
            result,
            requires_clause: None,
            ensures_clause: None,
        })?;
        Ok(())
    }

    fn add_formal(&mut self, alloc: Global, is_type: bool, last: &Token) -> Result<(), NoMemory>
        ensures { OnOk result (self.new ≡ add_formal is_type last.now self.old) }
    {
        let name = name_of(alloc, last)?;
        let formal = Formal {
            at: last.at,
            name,
            is_type,
        };
        add_to(alloc, &mut self.formals, formal)
    }

    /// Takes the newest heading off.
    pub fn take_heading(&mut self, alloc: Global) -> Result<Heading, NoMemory>
        ensures { IfOk result (λ h. (h ≡ heading self.old) × (self.new ≡ record self.old { headings = others self.old.headings })) }
    {
        match self.headings.pop() {
            Some(heading) => Ok(heading),
            None => Ok(Heading {
                at: 0,
                name: Name::new(alloc, &[])?,
                params: Items::new(alloc),
                result: None,
                requires_clause: None,
                ensures_clause: None,
            }),
        }
    }

    fn add_heading(&mut self, alloc: Global) -> Result<(), NoMemory>
        ensures { OnOk result (self.new ≡ record self.old { headings = others self.old.headings; heading_lists = added (heading self.old) self.old.heading_lists }) }
    {
        let heading = self.take_heading(alloc)?;
        add_to(alloc, &mut self.heading_lists, heading)
    }

    fn add_name(&mut self, alloc: Global, last: &Token) -> Result<(), NoMemory>
        ensures { OnOk result (self.new ≡ record self.old { names = added (kept last.now) self.old.names }) }
    {
        let word = Word::of(alloc, last)?;
        add_to(alloc, &mut self.names, word)
    }

    /// What an action of headings builds.
    pub fn heading_act(
        &mut self,
        alloc: Global,
        action: HeadingAction,
        last: &Token,
    ) -> Result<(), NoMemory>
        ensures { OnOk result (self.new ≡ heading_act action last.now self.old) }
    {
        match action {
            HeadingAction::Names => open(alloc, &mut self.names),
            HeadingAction::AddName => self.add_name(alloc, last),
            HeadingAction::SomeClause => self.some_clause(),
            HeadingAction::NoClause => put(&mut self.clauses, None),
            HeadingAction::Formals => open(alloc, &mut self.formals),
            HeadingAction::AddFormal(is_type) => self.add_formal(alloc, is_type, last),
            HeadingAction::Mode(mode) => put(&mut self.modes, mode),
            HeadingAction::TypeWord => self.type_word(alloc, last),
            HeadingAction::TypeAlone => self.type_alone(alloc),
            HeadingAction::TypeOf => self.type_of_facility(alloc, last),
            HeadingAction::ResultType => self.result_type(alloc, last),
            HeadingAction::NoResult => put(&mut self.results, None),
            HeadingAction::Params => open(alloc, &mut self.params),
            HeadingAction::AddParams => self.add_params(alloc),
            HeadingAction::TypedNames => open(alloc, &mut self.fields),
            HeadingAction::AddTypedNames => self.add_typed_names(alloc),
            HeadingAction::Headings => open(alloc, &mut self.heading_lists),
            HeadingAction::Heading => self.heading(alloc),
            HeadingAction::Signature => self.signature(alloc),
            HeadingAction::AddHeading => self.add_heading(alloc),
        }
    }
}
