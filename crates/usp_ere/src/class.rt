//! The elements of a set.

/// A named class of a set, as `[:alpha:]`, over ASCII.
#[derive(Clone, Copy, Debug, PartialEq, Eq)]
pub enum Class {
    Alpha,
    Digit,
    Alnum,
    Upper,
    Lower,
    Space,
    Blank,
    Punct,
    Print,
    Graph,
    Cntrl,
    Xdigit,
}

impl Class {
    ghost use Rattle.std.specs.Prelude.{◌≡◌};
    ghost use Rattle.usp_ere.specs.SetText.{text_of};

    pub(crate) const ALL: [Class; 12] = [
        Class::Alpha,
        Class::Digit,
        Class::Alnum,
        Class::Upper,
        Class::Lower,
        Class::Space,
        Class::Blank,
        Class::Punct,
        Class::Print,
        Class::Graph,
        Class::Cntrl,
        Class::Xdigit,
    ];

    /// How the class is written in a set.
    pub(crate) fn text(self) -> &'static [u8]
        ensures { result.now ≡ text_of self }
    {
        match self {
            Class::Alpha => b"[:alpha:]",
            Class::Digit => b"[:digit:]",
            Class::Alnum => b"[:alnum:]",
            Class::Upper => b"[:upper:]",
            Class::Lower => b"[:lower:]",
            Class::Space => b"[:space:]",
            Class::Blank => b"[:blank:]",
            Class::Punct => b"[:punct:]",
            Class::Print => b"[:print:]",
            Class::Graph => b"[:graph:]",
            Class::Cntrl => b"[:cntrl:]",
            Class::Xdigit => b"[:xdigit:]",
        }
    }
}

/// One element of a set.
#[derive(Clone, Copy, Debug, PartialEq, Eq)]
pub enum Element {
    One(u8),
    /// From the first byte to the second, both in it.
    Range(u8, u8),
    Named(Class),
}

impl Element {
    ghost use Rattle.std.specs.Prelude.{◌≡◌};
    ghost use Rattle.usp_ere.specs.SetText.{is_range};

    pub(crate) fn is_range(self) -> bool
        ensures { result ≡ is_range self }
    {
        matches!(self, Element::Range(..))
    }
}
