//! The stacks of the parser.
ghost use Rattle.std.specs.Prelude.{◌≡◌, ℕ, ◌-◌, ◌+◌, ◌<◌, ◌≤◌, [], ◌∷◌, ◌++◌, map, take, drop, length, slice_index, All, IfOk, OnOk};
ghost use Rattle.sg_kinds.specs.Values.{Value, Chars};
ghost use Rattle.sg_pool.specs.Pools.{value_at, StandsFor, IsGrown};
ghost use Rattle.sg_grammar.specs.Numbered.{first_lexeme};
ghost use Rattle.sg_lalr.specs.Tables.{IsAction};
ghost use Rattle.sg_lalr.specs.declared.table.Action.TheVariants as action;
ghost use Rattle.sg_eval.specs.Applied.{IsApplied};
ghost use Rattle.sg_eval.specs.MadeTerms.{AreMade};
ghost use Rattle.sg_input.specs.Results.{made_of};
ghost use Rattle.sg_input.specs.Driven.{bound_in, DrivenTo};
ghost use Rattle.sg_input.specs.Stepping.{ComesTo};
ghost use Rattle.sg_input.specs.Ready.{IsReady, next_of};
ghost use Rattle.sg_grammar.specs.declared.grammar.Made.TheVariants as made_as;

use sg_eval::Evaluator;
use sg_eval::made::MadeTerms;
use sg_grammar::Made;
use sg_kinds::ids::ValueId;
use sg_kinds::memory::NoMemory;
use sg_kinds::text::Text;
use sg_kinds::value::Value;
use sg_lalr::{Action, Tables};
use sg_patterns::InToken;
use sg_pool::pool::Pool;
use std::alloc::Global;

/// What a parse reads: the tables and the evaluator of a specification, the place of one of its entries, and a text
/// with its tokens.
#[derive(Drop)]
pub(crate) struct Reading<'a> {
    pub alloc: Global,
    pub tables: &'a Tables,
    pub evaluator: &'a Evaluator,
    pub entry: u32,
    pub text: &'a [u8],
    pub tokens: &'a [InToken],
}

/// The states, the last on top, and the numbers in a pool of the values of the lexemes and nonterminals before them. A
/// literal has none, so that the values of a right side are the last of all.
#[derive(Drop)]
pub(crate) struct Stacks {
    pub states: Vec<u32>,
    pub results: Vec<ValueId>,
    pub pool: Pool,
    pub made: MadeTerms,
}

/// What a step comes to: it goes on before this token, the tokens are at their end and accepted, or the next token
/// cannot stand there.
pub(crate) enum Step {
    On(usize),
    Accepted,
    Stopped,
}

impl<'a> Reading<'a> {
    /// The number of the first lexeme.
    fn first_lexeme(&self) -> usize
        requires { IsReady self.now }
        ensures { result ≡ first_lexeme self.now.evaluator.now }
    {
        self.tables.grammar().terminals() as usize - self.evaluator.spec().lexemes.len()
    }

    /// How many values a right side binds.
    fn bound(&self, right: &[u32]) -> usize
        requires { IsReady self.now }
        ensures { result ≡ bound_in self.now.evaluator.now right.now }
    {
        let first = self.first_lexeme();
        right.iter().filter(|x| first <= **x as usize).count()
    }

    /// The terminal of a token, or that of the end.
    fn terminal(&self, at: usize) -> u32
        ensures { result ≡ next_of self.now at }
    {
        match self.tokens.get(at) {
            Some(token) => token.terminal,
            None => 0,
        }
    }

    /// What is to be done before a token.
    pub(crate) fn action(&self, stacks: &Stacks, at: usize) -> Action
        requires ready { IsReady self.now }
        requires driven { DrivenTo self.now at stacks.now.states.items stacks.now.results.items stacks.now.pool }
        ensures { IsAction self.now.tables.now
            (slice_index stacks.now.states.items (length stacks.now.states.items - 1))
            (next_of self.now at) result }
    {
        self.tables.sound();
        self.tables.action(stacks.top(), self.terminal(at))
    }
}

impl Stacks {
    /// The stacks before the first token.
    pub(crate) fn new(reading: &Reading) -> Result<Stacks, NoMemory>
        requires { IsReady reading.now }
        ensures driven { IfOk result (λ s. DrivenTo reading.now 0 s.states.items s.results.items s.pool) }
        ensures made { IfOk result (λ s. AreMade reading.now.evaluator.now s.made s.pool) }
    {
        let tables = reading.tables;
        tables.sound();
        tables.decided();
        tables.grammar().sound();
        let first = tables.after(0, reading.entry + 1).unwrap();
        let mut states = Vec::new(reading.alloc);
        states.push(first)?;
        let pool = Pool::new(reading.alloc)?;
        let made = MadeTerms::new(reading.alloc, reading.evaluator.spec())?;
        Ok(Stacks {
            states,
            results: Vec::new(reading.alloc),
            pool,
            made,
        })
    }

    /// The state on top.
    fn top(&self) -> u32
        requires { 0 < length self.now.states.items }
        ensures { result ≡ slice_index self.now.states.items (length self.now.states.items - 1) }
    {
        self.states[self.states.len() - 1]
    }

    /// Puts the text of a lexeme on top.
    fn put_text(&mut self, alloc: Global, text: &[u8]) -> Result<(), NoMemory>
        ensures states { self.new.states ≡ self.old.states }
        ensures made { self.new.made ≡ self.old.made }
        ensures grown { IsGrown self.old.pool self.new.pool }
        ensures put { OnOk result ((id : ℕ) × StandsFor self.new.pool id (Chars text.now)
            × (self.new.results.items ≡ self.old.results.items ++ id ∷ [])) }
    {
        let text = Text::from_slice(alloc, text)?;
        let id = self.pool.put_text(text)?;
        self.results.push(id)?;
        Ok(())
    }

    /// Shifts a token.
    pub(crate) fn shift(&mut self, reading: &Reading, at: usize, next: u32) -> Result<(), NoMemory>
        requires ready { IsReady reading.now }
        requires at { at < length reading.now.tokens.now }
        requires driven { DrivenTo reading.now at self.old.states.items self.old.results.items self.old.pool }
        requires acts { IsAction reading.now.tables.now
            (slice_index self.old.states.items (length self.old.states.items - 1))
            (next_of reading.now at) (action.Shift next) }
        requires made { AreMade reading.now.evaluator.now self.old.made self.old.pool }
        ensures driven { OnOk result
            (DrivenTo reading.now (at + 1) self.new.states.items self.new.results.items self.new.pool) }
        ensures made { AreMade reading.now.evaluator.now self.new.made self.new.pool }
    {
        reading.tables.sound();
        let token = reading.tokens[at];
        self.states.push(next)?;
        if (token.terminal as usize) < reading.first_lexeme() {
            return Ok(());
        }
        self.put_text(reading.alloc, &reading.text[token.from..token.to])
    }

    /// Puts what is made of the values from a place on in their place.
    fn make(&mut self, reading: &Reading, made: Made, from: usize) -> Result<(), NoMemory>
        requires from { from ≤ length self.old.results.items }
        requires numbers { All (λ id. id < length self.old.pool) self.old.results.items }
        requires applied { (e : ℕ) → made ≡ made_as.Outcome e → IsApplied reading.now.evaluator.now e }
        requires made { AreMade reading.now.evaluator.now self.old.made self.old.pool }
        ensures states { self.new.states ≡ self.old.states }
        ensures numbers { OnOk result (All (λ id. id < length self.new.pool) self.new.results.items) }
        ensures values { OnOk result (map (value_at self.new.pool) self.new.results.items
            ≡ map (value_at self.old.pool) (take from self.old.results.items)
            ++ made_of reading.now.evaluator.now made (map (value_at self.old.pool)
            (drop from self.old.results.items))) }
        ensures made { AreMade reading.now.evaluator.now self.new.made self.new.pool }
    {
        match made {
            Made::Outcome(e) => {
                let bound = &self.results.as_slice()[from..];
                let id = reading
                    .evaluator
                    .apply_in(e, bound, &mut self.pool, &mut self.made)?;
                self.results.truncate(from);
                self.results.push(id)?;
                Ok(())
            }
            Made::Same => Ok(()),
        }
    }

    /// Reduces a production.
    pub(crate) fn reduce(&mut self, reading: &Reading, at: usize, p: u32) -> Result<(), NoMemory>
        requires ready { IsReady reading.now }
        requires driven { DrivenTo reading.now at self.old.states.items self.old.results.items self.old.pool }
        requires acts { IsAction reading.now.tables.now
            (slice_index self.old.states.items (length self.old.states.items - 1))
            (next_of reading.now at) (action.Reduce p) }
        requires made { AreMade reading.now.evaluator.now self.old.made self.old.pool }
        ensures driven { OnOk result
            (DrivenTo reading.now at self.new.states.items self.new.results.items self.new.pool) }
        ensures made { AreMade reading.now.evaluator.now self.new.made self.new.pool }
    {
        reading.tables.sound();
        let production = reading.tables.production(p);
        let right = production.right.as_slice();
        let from = self.results.len() - reading.bound(right);
        self.states.truncate(self.states.len() - right.len());
        let next = reading.tables.after(self.top(), production.left).unwrap();
        self.states.push(next)?;
        self.make(reading, production.made, from)
    }

    /// One step, before a token.
    pub(crate) fn step(&mut self, reading: &Reading, at: usize) -> Result<Step, NoMemory>
        requires ready { IsReady reading.now }
        requires at { at ≤ length reading.now.tokens.now }
        requires driven { DrivenTo reading.now at self.old.states.items self.old.results.items self.old.pool }
        requires made { AreMade reading.now.evaluator.now self.old.made self.old.pool }
        ensures next { IfOk result
            (ComesTo reading.now at self.new.states.items self.new.results.items self.new.pool) }
        ensures made { AreMade reading.now.evaluator.now self.new.made self.new.pool }
    {
        reading.tables.sound();
        match reading.action(self, at) {
            Action::Shift(next) => {
                self.shift(reading, at, next)?;
                Ok(Step::On(at + 1))
            }
            Action::Reduce(p) => {
                self.reduce(reading, at, p)?;
                Ok(Step::On(at))
            }
            Action::Accept => Ok(Step::Accepted),
            Action::Stop => Ok(Step::Stopped),
        }
    }

    /// The value of the one result.
    pub(crate) fn value(&self, alloc: Global) -> Result<Value, NoMemory>
        requires one { length self.now.results.items ≡ 1 }
        requires numbers { All (λ id. id < length self.now.pool) self.now.results.items }
        ensures { IfOk result (λ v. map (value_at self.now.pool) self.now.results.items ≡ v ∷ []) }
    {
        self.pool.value(alloc, self.results[0])
    }
}
