// A term in words as a head applied to arguments.
ghost use Rattle.std.specs.Prelude.{◌≡◌, ℕ, ◌+◌, ◌*◌, ◌^◌, ◌<◌, ◌≤◌, true, List, length, IfSome};
ghost use Rattle.theory.specs.Terms.{Term, app};
ghost use Rattle.theory.specs.Environment.{Env};
ghost use Rattle.theory.proofs.WeakHead.{needs_arg};
ghost use Rattle.terms.specs.Words.{At, Holds, root};
ghost use Rattle.reduction.specs.Store.{EnvAt};
ghost use Rattle.reduction.specs.Spines.{uses, head_term, head_of, HeadAt, Wants, Unfolds, Looks, con_fits_lem, refl_fits_lem, Fires};

use crate::store::{Environment, Found};
use terms::sign::{Sign, sign_at};

// What the pass that finds the step does with a term: it has no parts and no step; its two parts come; a redex stands in it at this place; its
// head and so many arguments come; of so many arguments its head has to look at this one.
#[derive(Clone, Copy, Debug, PartialEq, Eq)]
pub enum Look {
    Leaf,
    Pair,
    Redex(usize),
    Spread(usize),
    Needs(usize, usize),
}

// The number of arguments of the term that stands there.
pub fn count_uses(words: &[u32], at: usize) -> usize
    requires { Holds words.now at }
    ensures within { at + 3 * result + 3 ≤ length words.now }
    ensures head { (t : Term) (rest : List ℕ) → At words.now at t rest → HeadAt words.now (at + 3 * result) result t }
{
    // No iterator: a node's sign is read only where a term stands, which each step shows of the next place.
    let mut place = at;
    let mut count = 0;
    while let Sign::App = sign_at(words, place) {
        place += 3;
        count += 1;
    }
    count
}

// The argument that a head has to look at, from 1, if there is one.
fn needed(env: Environment, head: Sign) -> Option<usize>
    ensures small { IfSome result (λ m. m < 2 ^ 40) }
    ensures two { IfSome result (λ m. 2 ≤ m) }
    ensures wants { (e : Env) (t : Term) → EnvAt env.entry.index.now env.entry.store.now e → head ≡ root t → Wants e t result }
{
    match head {
        Sign::Rec(i, _) => {
            let numbers = env.data_numbers(i)?;
            Some(numbers.params as usize + (2 + numbers.cons as usize))
        }
        Sign::Along(_, _) => Some(6),
        _ => None,
    }
}

// Does the head unfold?
fn unfolds(env: Environment, head: Sign) -> bool
    ensures { (e : Env) (t : Term) → EnvAt env.entry.index.now env.entry.store.now e → head ≡ root t → Unfolds e t result }
{
    let Sign::Def(i) = head else {
        return false;
    };
    matches!(env.find_entry(i), Some(Found::Definition(_, _)))
}

// Does a constructor of data type `number`, with all its arguments, stand there?
fn con_fits(env: Environment, number: u32, words: &[u32], at: usize) -> bool
    requires { Holds words.now at }
    ensures { (e : Env) (a : Term) (rest : List ℕ) → EnvAt env.entry.index.now env.entry.store.now e → At words.now at a rest → result ≡ con_fits_lem e number (head_of (head_term a)) (uses a) }
{
    let count = count_uses(words, at);
    let Sign::Con(i, k) = sign_at(words, at + 3 * count) else {
        return false;
    };
    if number != i {
        return false;
    }
    let Some(numbers) = env.data_numbers(number) else {
        return false;
    };
    let Some(con) = env.con_numbers(number, k) else {
        return false;
    };
    count == numbers.params as usize + (con.fields as usize + con.recs as usize)
}

// Does reflexivity with its two arguments stand there?
fn refl_fits(words: &[u32], at: usize) -> bool
    requires { Holds words.now at }
    ensures { (a : Term) (rest : List ℕ) → At words.now at a rest → result ≡ refl_fits_lem (head_of (head_term a)) (uses a) }
{
    let count = count_uses(words, at);
    matches!(sign_at(words, at + 3 * count), Sign::Refl(_)) && count == 2
}

// Is the application that stands at `at`, whose head looks at its last argument at `last`, a redex?
pub fn fires(env: Environment, words: &[u32], at: usize, last: usize) -> bool
    requires stands { Holds words.now at }
    requires argument { Holds words.now last }
    ensures { (e : Env) (f a : Term) (x y : List ℕ) → EnvAt env.entry.index.now env.entry.store.now e → At words.now at (app f a) x → At words.now last a y → needs_arg e f a ≡ true → Fires e f a result }
{
    let count = count_uses(words, at);
    match sign_at(words, at + 3 * count) {
        Sign::Rec(i, _) => con_fits(env, i, words, last),
        Sign::Along(_, _) => refl_fits(words, last),
        _ => false,
    }
}

// What the pass does with a term that is no application.
fn look_alone(env: Environment, sign: Sign, at: usize) -> Look
    ensures { (e : Env) (t : Term) → EnvAt env.entry.index.now env.entry.store.now e → sign ≡ root t → uses t ≡ 0 → Looks e at t result }
{
    match sign {
        Sign::Pi | Sign::Lam => Look::Pair,
        _ if unfolds(env, sign) => Look::Redex(at),
        _ => Look::Leaf,
    }
}

// What the pass does with the term that stands there.
pub fn look_at(env: Environment, words: &[u32], at: usize) -> Look
    requires { Holds words.now at }
    ensures { (e : Env) (t : Term) (rest : List ℕ) → EnvAt env.entry.index.now env.entry.store.now e → At words.now at t rest → Looks e at t result }
{
    let count = count_uses(words, at);
    let head = sign_at(words, at + 3 * count);
    if count == 0 {
        return look_alone(env, head, at);
    }
    if let Sign::Lam = head {
        return Look::Redex(at + 3 * (count - 1));
    }
    if unfolds(env, head) {
        return Look::Redex(at + 3 * count);
    }
    match needed(env, head) {
        Some(argument) if argument <= count => Look::Needs(count, argument),
        _ => Look::Spread(count),
    }
}
