// The kinds of spaces, document 01, "Spaces" and "Conditions", and document 02, No. 5.

ghost use Rattle.std.specs.Prelude.{◌≡◌};
ghost use Rattle.model.specs.Text.{kind_letter};
ghost use Rattle.text.specs.Kinds.{kind_says};

// The kind of a space, one letter of an `S` line.
#[derive(Clone, Copy, PartialEq, Eq)]
pub enum Kind {
    Static,
    Attribute,
    Property,
    Mixed,
    Wide,
    Rescued,
}

impl From<Kind> for u8 {
    ghost from_gives = { λ kind letter. letter ≡ kind_letter (kind_says kind) };

    fn from(kind: Kind) -> u8 {
        match kind {
            Kind::Static => b'S',
            Kind::Attribute => b'A',
            Kind::Property => b'P',
            Kind::Mixed => b'M',
            Kind::Wide => b'W',
            Kind::Rescued => b'H',
        }
    }
}
