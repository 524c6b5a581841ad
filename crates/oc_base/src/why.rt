ghost use Rattle.std.specs.Prelude.{◌≡◌};
ghost use Rattle.oc_base.specs.Why.{why_text};

use std::fmt;

/// Why a line of a text is refused.
#[derive(Clone, Copy, Debug, PartialEq, Eq, Hash)]
pub enum Why {
    /// The first line is not the full header.
    Header,
    /// The word is not one that may appear there.
    Word,
    /// The number of words is wrong.
    Count,
    /// A field is not spelled as a number.
    Number,
    /// A number is out of its range.
    Range,
    /// A field is not a group name.
    Group,
    /// A field is not hexadecimal.
    Hex,
}

impl Why {
    /// The word for this cause in an error line.
    pub fn word(self) -> &'static str
        ensures { result.now ≡ why_text self }
    {
        match self {
            Why::Header => "header",
            Why::Word => "word",
            Why::Count => "count",
            Why::Number => "number",
            Why::Range => "range",
            Why::Group => "group",
            Why::Hex => "hex",
        }
    }
}

impl fmt::Display for Why {
    fn fmt<W: fmt::Write>(&self, f: &mut fmt::Formatter<W>) -> fmt::Result {
        let word = self.word();
        write!(f, "{word}")
    }
}
