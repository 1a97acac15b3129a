// The line that is written about a text.
ghost use Rattle.std.specs.Prelude.{Some};
ghost use Rattle.checker.specs.Reports.{line_text};

use crate::answer::{Fault, Place, Said};
use std::fmt;

// A text's name, and what is said of it.
#[derive(Clone, Copy, Debug, PartialEq, Eq)]
pub struct Line<'n, 't> {
    pub name: &'n str,
    pub said: Said<'t>,
}

impl<'n, 't> fmt::Display for Line<'n, 't> {
    ghost output = { λ l. Some (line_text l) };

    fn fmt<W: fmt::Write>(&self, f: &mut fmt::Formatter<W>) -> fmt::Result {
        let name = self.name;
        match self.said {
            Said::All(n) => write!(f, "{name}: all {n}"),
            Said::Stopped(
                reason,
                after,
                Place {
                    line,
                    keyword,
                    name: declared,
                },
            ) => write!(
                f,
                "{name}:{line}: {reason} after {after}: {keyword} {declared}"
            ),
            Said::NotYet(stage) => write!(f, "{name}: not yet: stage {stage}"),
            Said::NoText(Fault { line, what }) => write!(f, "{name}:{line}: no text: {what}"),
            Said::Few(words, least) => write!(
                f,
                "{name}: few: {words} words are too few for this text, at least {least} are needed"
            ),
        }
    }
}
