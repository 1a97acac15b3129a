// Why a text is no row of declarations.
ghost use Rattle.std.specs.Prelude.{◌≡◌};
ghost use Rattle.syntax.specs.Phrases.{phrase};

// What is wrong, or what was expected where reading stopped.
#[derive(Clone, Copy, Debug, PartialEq, Eq)]
pub enum Problem {
    TooLong,
    TooDeep,
    Twice,
    Declaration,
    Name,
    Number,
    Term,
    Script,
    Open,
    Close,
    OpenBrace,
    CloseBrace,
    Colon,
    Semicolon,
    Becomes,
    Maps,
    Arrow,
    Level,
    Again,
}

impl Problem {
    // The problem in words. No Display: the words are one text, which is held and written as it is.
    pub fn text(self) -> &'static str
        ensures { result.now ≡ phrase self }
    {
        match self {
            Problem::TooLong => "the text has more than 32768 bytes",
            Problem::TooDeep => "more than 64 brackets are open",
            Problem::Twice => "a name is declared twice",
            Problem::Declaration => "a declaration was expected",
            Problem::Name => "a name was expected",
            Problem::Number => "a number of at most three digits was expected",
            Problem::Term => "a term was expected",
            Problem::Script => "a step of a script was expected",
            Problem::Open => "( and a name and : were expected",
            Problem::Close => ") was expected",
            Problem::OpenBrace => "{ was expected",
            Problem::CloseBrace => "} was expected",
            Problem::Colon => ": was expected",
            Problem::Semicolon => "; was expected",
            Problem::Becomes => ":= was expected",
            Problem::Maps => "=> was expected",
            Problem::Arrow => "-> was expected",
            Problem::Level => "Type and a number were expected",
            Problem::Again => "again was expected",
        }
    }
}

// Where reading stopped, by the number of bytes that were left, and why.
#[derive(Clone, Copy, Debug, PartialEq, Eq)]
pub struct Stop {
    pub left: usize,
    pub problem: Problem,
}
