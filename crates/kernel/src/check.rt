// Checking of declarations: an axiom's type is of a sort; so is a definition's, and the body is of that type.
ghost use Rattle.std.specs.Prelude.{◌≡◌, ℕ, List, [], length};
ghost use Rattle.theory.specs.Terms.{Term, sort};
ghost use Rattle.theory.specs.Environment.{Env, defined, assumed};
ghost use Rattle.theory.specs.Typing.{HasType};
ghost use Rattle.terms.specs.Words.{At};
ghost use Rattle.reduction.specs.Stepping.{Stands};
ghost use Rattle.kernel.specs.Environments.{PlainAt};
ghost use Rattle.kernel.specs.Machine.{Task};
ghost use Rattle.kernel.specs.Turns.{IsGiven, Keeps};
ghost use Rattle.kernel.specs.Resting.{Agrees};
ghost use Rattle.kernel.specs.Answers.{CanInfer, IsBegun};
ghost use Rattle.kernel.specs.Checking.{Fits, AxiomAt, DefinitionAt, BodyAt, TwoTypes, OfSort, Checks};

use crate::agree::agree;
use crate::failure::{Failure, Limit};
use crate::machine::Machine;
use crate::sorted::to_level;
use reduction::budget::Budget;
use terms::copy::copy_term;

impl Machine<'_> {
    // Is the term at a place of a sort? Its type is inferred and comes to a sort.
    fn check_type(&mut self, at: usize) -> Result<(), Failure>
        requires { CanInfer self.old at (length self.old.context.now) }
        ensures sorted { (k : Task) → IsGiven k self.old → IsBegun k self.old at (length self.old.context.now)
            → k.most ≡ self.old.most → OfSort k (length self.new.heap.now) result }
        ensures keeps { Keeps self.old self.new }
    {
        let names = self.context.len();
        let end = self.infer(at, names)?;
        to_level(self.env, self.heap, 0, end, self.stack, self.most)?;
        Ok(())
    }

    // Is the type that stands at the start of the heap, up to `top`, convertible with the one at a place of the terms?
    fn same_type(&mut self, at: usize, top: usize) -> Result<bool, Limit>
        requires { TwoTypes self.old at top }
        ensures agrees { (e : Env) (b a : Term) (rest : List ℕ) → PlainAt self.old.env.index.now self.old.env.store.now e → Stands self.old.heap.now 0 b top
            → At self.old.terms.now at a rest → Agrees e 0 self.old.most self.old.heap.now top (length self.old.stack.now) b a self.new.heap.now result }
        ensures keeps { Keeps self.old self.new }
    {
        // Reborrowed, since the call lends one field as `&` and one as `&mut`.
        let heap = &mut *self.heap;
        let end = copy_term(self.terms, at, heap, top).ok_or(Limit::NoRoom)?;
        let budget = Budget {
            taken: 0,
            most: self.most,
        };
        agree(self.env, self.heap, 0, top, end, self.stack, budget)
    }

    // Is the body of the type, which is of a sort?
    fn check_body(&mut self, declared: usize, body: usize) -> Result<(), Failure>
        requires { BodyAt self.old declared body }
        ensures checks { (e : Env) (t a : Term) (x y : List ℕ) (i : ℕ) → At self.old.terms.now declared a x → At self.old.terms.now body t y
            → Fits e (defined t a) self.old → HasType e [] a (sort i) → Checks e (defined t a) self.old.most (length self.new.heap.now) result }
        ensures keeps { Keeps self.old self.new }
    {
        let names = self.context.len();
        let top = self.infer(body, names)?;
        if self.same_type(declared, top)? {
            Ok(())
        } else {
            Err(Failure::Refused)
        }
    }

    // May the definition be declared whose type and body stand at these places of the terms?
    pub fn check_definition(&mut self, declared: usize, body: usize) -> Result<(), Failure>
        requires { DefinitionAt self.old declared body }
        ensures checks { (e : Env) (t a : Term) (x y : List ℕ) → At self.old.terms.now declared a x → At self.old.terms.now body t y
            → Fits e (defined t a) self.old → Checks e (defined t a) self.old.most (length self.new.heap.now) result }
        ensures keeps { Keeps self.old self.new }
    {
        self.check_type(declared)?;
        self.check_body(declared, body)
    }

    // May the axiom be declared whose type stands at this place of the terms?
    pub fn check_axiom(&mut self, declared: usize) -> Result<(), Failure>
        requires { AxiomAt self.old declared }
        ensures checks { (e : Env) (a : Term) (x : List ℕ) → At self.old.terms.now declared a x
            → Fits e (assumed a) self.old → Checks e (assumed a) self.old.most (length self.new.heap.now) result }
        ensures keeps { Keeps self.old self.new }
    {
        self.check_type(declared)
    }
}
