ghost use Rattle.std.specs.Prelude.{◌≡◌, ℕ, Bool, ◌&&◌, nat_le};
ghost use Rattle.string.specs.Picks.{listed};

// Which bytes `retain` removes: one question of one byte, always with the same answer.
pub trait Pick {
    ghost picked: { Self → ℕ → Bool };

    fn picks(&self, byte: u8) -> bool
        ensures answer { result ≡ picked self.now byte };
}

// The bytes from `first` to `last`, both included.
#[derive(Clone, Copy)]
pub struct ByteRange {
    pub first: u8,
    pub last: u8,
}

impl Pick for ByteRange {
    ghost picked = { λ p b. nat_le p.first b && nat_le b p.last };

    fn picks(&self, byte: u8) -> bool {
        (self.first..=self.last).contains(&byte)
    }
}

// The bytes of a list.
#[derive(Clone, Copy)]
pub struct ByteList<'a> {
    pub bytes: &'a [u8],
}

impl<'a> Pick for ByteList<'a> {
    ghost picked = { λ p b. listed p.bytes.now b };

    fn picks(&self, byte: u8) -> bool {
        self.bytes.iter().any(|listed| *listed == byte)
    }
}
