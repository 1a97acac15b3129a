// The tags of a tree's words.
ghost use Rattle.syntax.specs.Tags.{TagOf};

// What a word of a tree begins: a form of a term, a parameter, a constructor, a declaration, or the end of several.
#[derive(Clone, Copy, Debug, PartialEq, Eq)]
pub enum Tag {
    End = 0,
    Name = 1,
    Indexed = 2,
    Full = 3,
    Sort = 4,
    Pi = 5,
    Lam = 6,
    App = 7,
    Hole = 8,
    By = 9,
    Have = 10,
    Param = 11,
    Con = 12,
    Def = 13,
    Axiom = 14,
    Data = 15,
}

impl Tag {
    // The tag with that number, if one has it. The numbers of the words become tags here alone. An Option and no TryFrom: the
    // one caller knows that a tag stands there, and an error would say no more.
    pub fn of(word: u32) -> Option<Tag>
        ensures { TagOf word result }
    {
        match word {
            0 => Some(Tag::End),
            1 => Some(Tag::Name),
            2 => Some(Tag::Indexed),
            3 => Some(Tag::Full),
            4 => Some(Tag::Sort),
            5 => Some(Tag::Pi),
            6 => Some(Tag::Lam),
            7 => Some(Tag::App),
            8 => Some(Tag::Hole),
            9 => Some(Tag::By),
            10 => Some(Tag::Have),
            11 => Some(Tag::Param),
            12 => Some(Tag::Con),
            13 => Some(Tag::Def),
            14 => Some(Tag::Axiom),
            15 => Some(Tag::Data),
            _ => None,
        }
    }
}
