// The four links, each by the first letter of its name in a line.
ghost use Rattle.std.specs.Prelude.{◌≡◌};
ghost use Rattle.vector_text.specs.Links.{link_of};

// A `match` on it is no `dyn`: what the programs call on a link has types and functions without a value.
#[derive(Clone, Copy, Debug, PartialEq, Eq)]
pub enum Link {
    Pcs,
    Mdu,
    Dle,
    Expansion,
}

// Any other letter, or none, is that of expansion.
impl From<u8> for Link {
    ghost from_gives = { λ letter link. link ≡ link_of letter };

    fn from(letter: u8) -> Link {
        match letter {
            b'p' => Link::Pcs,
            b'm' => Link::Mdu,
            b'd' => Link::Dle,
            _ => Link::Expansion,
        }
    }
}
