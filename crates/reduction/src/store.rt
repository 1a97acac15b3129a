// The environment in words: an index table of places, two words each, and a store of entries.
ghost use Rattle.std.specs.Prelude.{◌≡◌, ℕ, ◌+◌, ◌*◌, ◌<◌, ◌≤◌, List, length, IfSome, slice_index, MatchOption};
ghost use Rattle.std.proofs.Math.ListN.{get_elem?};
ghost use Rattle.theory.specs.Environment.{Env, data_at};
ghost use Rattle.reduction.specs.Store.{EnvAt, Stored, place};
ghost use Rattle.reduction.specs.Lookup.{Finds, FindsPlace, FindsData, FindsCon, con_at};

use terms::number::number_of;

// The words of an environment, and nothing more.
#[derive(Clone, Copy)]
pub struct Environment<'a> {
    pub index: &'a [u32],
    pub store: &'a [u32],
    pub ghost stored: { ∥ Stored index.now store.now ∥₁ },
}

// What stands at a number of the environment: where the type and the body of a definition stand, the type of an axiom, the words of a data type.
#[derive(Clone, Copy, Debug, PartialEq, Eq)]
pub enum Found {
    Definition(usize, usize),
    Axiom(usize),
    Inductive(usize),
}

// The numbers of a data type: parameters, level, constructors.
#[derive(Clone, Copy, Debug, PartialEq, Eq)]
pub struct DataNumbers {
    pub params: u32,
    pub level: u32,
    pub cons: u32,
}

// The numbers of a constructor: fields, recursive fields.
#[derive(Clone, Copy, Debug, PartialEq, Eq)]
pub struct ConNumbers {
    pub fields: u32,
    pub recs: u32,
}

impl Environment<'_> {
    // The place that the table has for this number, if it has one.
    fn entry_place(self, number: u32) -> Option<usize>
        ensures finds { MatchOption result (length self.entry.index.now < 2 * number + 2) (λ p. (2 * number + 2 ≤ length self.entry.index.now) × (p ≡ place self.entry.index.now number)) }
        ensures within { IfSome result (λ p. p + 3 ≤ length self.entry.store.now) }
    {
        let i = 2 * number as usize;
        if self.index.len() < i + 2 {
            return None;
        }
        Some(number_of(self.index[i], self.index[i + 1]))
    }

    // The entry with this number. Its mark, the first word, is read here alone: `Found` is the enum of them.
    pub fn find_entry(self, number: u32) -> Option<Found>
        ensures { (e : Env) → EnvAt self.entry.index.now self.entry.store.now e → Finds self.entry.store.now (get_elem? e number) result }
    {
        let place = self.entry_place(number)?;
        let found = match self.store[place] {
            0 => {
                let words = number_of(self.store[place + 1], self.store[place + 2]);
                Found::Definition(place + 3, place + 3 + words)
            }
            1 => Found::Axiom(place + 3),
            _ => Found::Inductive(place),
        };
        Some(found)
    }

    // Where the words of a data type stand.
    fn data_place(self, number: u32) -> Option<usize>
        ensures finds { (e : Env) → EnvAt self.entry.index.now self.entry.store.now e → FindsPlace self.entry.store.now (data_at e number) result }
        ensures within { IfSome result (λ p. p + 4 + 2 * slice_index self.entry.store.now (p + 3) ≤ length self.entry.store.now) }
    {
        match self.find_entry(number)? {
            Found::Inductive(place) => Some(place),
            Found::Definition(_, _) | Found::Axiom(_) => None,
        }
    }

    // The numbers of the data type with this number.
    pub fn data_numbers(self, number: u32) -> Option<DataNumbers>
        ensures { (e : Env) → EnvAt self.entry.index.now self.entry.store.now e → FindsData (data_at e number) result }
    {
        let place = self.data_place(number)?;
        Some(DataNumbers {
            params: self.store[place + 1],
            level: self.store[place + 2],
            cons: self.store[place + 3],
        })
    }

    // The numbers of constructor `which` of the data type with this number.
    pub fn con_numbers(self, number: u32, which: u32) -> Option<ConNumbers>
        ensures { (e : Env) → EnvAt self.entry.index.now self.entry.store.now e → FindsCon (con_at (data_at e number) which) result }
    {
        let place = self.data_place(number)?;
        if self.store[place + 3] <= which {
            return None;
        }
        let at = place + 4 + 2 * which as usize;
        Some(ConNumbers {
            fields: self.store[at],
            recs: self.store[at + 1],
        })
    }
}
