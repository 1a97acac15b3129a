// The theorems about the rules. Each function stands for one: its contract is the statement, and without the proof the crate fails. They
// have no more in common than a body, so they are no generic one.

#![tactic(auto)]

ghost use Rattle.theory.specs.Theorems.{Confluence, UniqueTypes, SubjectReduction, Validity, InferenceSound, InferenceComplete, EnvWeakening};

// Convertible terms have a common reduct.
pub fn confluence_stands() -> u8
    ensures { Confluence }
{
    0
}

// A term has one type, up to conversion.
pub fn unique_types_stands() -> u8
    ensures { UniqueTypes }
{
    0
}

// A step keeps the type.
pub fn subject_reduction_stands() -> u8
    ensures { SubjectReduction }
{
    0
}

// Every type is of a sort.
pub fn validity_stands() -> u8
    ensures { Validity }
{
    0
}

// The inferred type of a term that has a type is that type, up to conversion.
pub fn inference_sound_stands() -> u8
    ensures { InferenceSound }
{
    0
}

// A term that has a type has an inferred type.
pub fn inference_complete_stands() -> u8
    ensures { InferenceComplete }
{
    0
}

// One more entry changes no typing.
pub fn env_weakening_stands() -> u8
    ensures { EnvWeakening }
{
    0
}
