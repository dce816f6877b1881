ghost use Rattle.std.specs.Prelude.{◌≡◌};

/// Where a byte of a line is.
#[derive(Clone, Copy, Debug, PartialEq, Eq)]
pub enum Place {
    /// Outside strings and braces.
    Open,
    /// In a string.
    Quoted,
    /// After a `\` in a string.
    Escaped,
    /// In braces.
    Braced,
    /// In a string in braces.
    BracedQuoted,
    /// After a `\` in such a string.
    BracedEscaped,
}

impl Place {
    ghost use Rattle.osl_valuetext.specs.Splitting.{next, is_open};

    /// The place after a byte: strings begin and end with a quote that no `\` escapes, and braces
    /// do not nest.
    pub fn next(self, byte: u8) -> Place
        ensures { result ≡ next self byte }
    {
        match (self, byte) {
            (Place::Open, b'"') => Place::Quoted,
            (Place::Open, b'{') => Place::Braced,
            (Place::Open, _) => Place::Open,
            (Place::Quoted, b'"') => Place::Open,
            (Place::Quoted, b'\\') => Place::Escaped,
            (Place::Quoted, _) => Place::Quoted,
            (Place::Escaped, _) => Place::Quoted,
            (Place::Braced, b'"') => Place::BracedQuoted,
            (Place::Braced, b'}') => Place::Open,
            (Place::Braced, _) => Place::Braced,
            (Place::BracedQuoted, b'"') => Place::Braced,
            (Place::BracedQuoted, b'\\') => Place::BracedEscaped,
            (Place::BracedQuoted, _) => Place::BracedQuoted,
            (Place::BracedEscaped, _) => Place::BracedQuoted,
        }
    }

    /// Outside strings and braces.
    pub fn is_open(self) -> bool
        ensures { result ≡ is_open self }
    {
        self == Place::Open
    }
}
