// What a redex contracts to, written into other words.
ghost use Rattle.std.specs.Prelude.{◌≡◌, ℕ, ◌+◌, ◌*◌, ◌^◌, ◌<◌, ◌≤◌, List, [], length, drop};
ghost use Rattle.std.proofs.Math.Option.{some};
ghost use Rattle.theory.specs.Terms.{Term, lam, app, h_def, h_along, subst as subst_term};
ghost use Rattle.theory.specs.Environment.{Env};
ghost use Rattle.theory.specs.Reduction.{contract, delta};
ghost use Rattle.reduction.specs.Spines.{head_term, head_of, top_step};
ghost use Rattle.terms.specs.Words.{At, puts};
ghost use Rattle.terms.specs.Copying.{Fits, Copies};
ghost use Rattle.reduction.specs.Store.{EnvAt};
ghost use Rattle.reduction.specs.Stepping.{BetaAt, DeltaAt, RowAt, AlongAt, AppRedex, Contractible, Makes};

use crate::spine::count_uses;
use crate::step::StepError;
use crate::store::{Environment, Found};
use terms::copy::{WriteError, copy_term};
use terms::sign::{Sign, sign_at};
use terms::subst::subst;
use terms::walk::end_of;

// A function on its argument: its body with the argument put in.
fn make_beta(
    words: &[u32],
    at: usize,
    out: &mut [u32],
    stack: &mut [u32],
) -> Result<usize, WriteError>
    requires { BetaAt words.now at }
    ensures { (b c a : Term) (rest : List ℕ) → At words.now at (app (lam b c) a) rest → Copies out.old 0 out.new (length stack.old) (subst_term 0 a c) result }
{
    let body = end_of(words, at + 6);
    let argument = end_of(words, body);
    subst(words, body, 0, words, argument, out, 0, stack)
}

// A defined name: its body.
fn make_delta(env: Environment, number: u32, out: &mut [u32]) -> Option<usize>
    requires { DeltaAt env.index.now env.store.now number }
    ensures { (e : Env) (u : Term) → EnvAt env.entry.index.now env.entry.store.now e → delta e (h_def number) ≡ some u → Fits out.old 0 out.new u result }
{
    match env.find_entry(number)? {
        Found::Definition(_, body) => copy_term(env.store, body, out, 0),
        Found::Axiom(_) | Found::Inductive(_) => None,
    }
}

// Where the term behind the first `count` terms of a row stands.
fn skip_terms(words: &[u32], at: usize, count: usize) -> usize
    requires { RowAt words.now at count }
    ensures { (ts : List Term) (rest : List ℕ) → drop at words.now ≡ puts ts rest → count ≤ length ts → drop result words.now ≡ puts (drop count ts) rest }
{
    let mut place = at;
    for _ in 0..count {
        place = end_of(words, place);
    }
    place
}

// An elimination on reflexivity: its fourth argument.
fn make_along(words: &[u32], at: usize, out: &mut [u32]) -> Option<usize>
    requires { AlongAt words.now at }
    ensures { (e : Env) (f a u : Term) (i j : ℕ) (rest : List ℕ) → At words.now at (app f a) rest → head_of (head_term f) ≡ some (h_along i j) → contract e f a ≡ some u → Fits out.old 0 out.new u result }
{
    let place = skip_terms(words, at + 21, 3);
    copy_term(words, place, out, 0)
}

// A redex that is an application.
fn contract_app(
    words: &[u32],
    at: usize,
    out: &mut [u32],
    stack: &mut [u32],
) -> Result<usize, StepError>
    requires { AppRedex words.now at }
    ensures { (e : Env) (f a u : Term) (rest : List ℕ) → At words.now at (app f a) rest → contract e f a ≡ some u → Makes e out.old out.new (length stack.old) u result }
{
    if let Sign::Lam = sign_at(words, at + 3) {
        let end = make_beta(words, at, out, stack)?;
        return Ok(end);
    }
    let count = count_uses(words, at);
    if let Sign::Along(_, _) = sign_at(words, at + 3 * count) {
        return make_along(words, at, out).ok_or(StepError::NoRoom);
    }
    Err(StepError::NotYet)
}

// What the redex that stands there contracts to.
pub fn contract_into(
    env: Environment,
    words: &[u32],
    at: usize,
    out: &mut [u32],
    stack: &mut [u32],
) -> Result<usize, StepError>
    requires { Contractible env.index.now env.store.now words.now at }
    ensures { (e : Env) (t u : Term) (rest : List ℕ) → EnvAt env.entry.index.now env.entry.store.now e → At words.now at t rest → top_step e t ≡ some u → Makes e out.old out.new (length stack.old) u result }
{
    match sign_at(words, at) {
        Sign::Def(i) => make_delta(env, i, out).ok_or(StepError::NoRoom),
        Sign::App => contract_app(words, at, out, stack),
        _ => Err(StepError::NotYet),
    }
}
