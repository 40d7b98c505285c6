//! Guesses where names stand in a list.

ghost use Rattle.std.specs.Prelude.{◌<◌};

/// Where names may stand in a list, by a number of their bytes, so that most names are found without an index. No clause says
/// that a guess is right: who asks compares the name that stands there.
#[derive(Debug, Drop)]
pub struct Guesses {
    places: [u8; 1024],
}

impl Guesses {
    /// Guesses before any name is noted.
    pub fn new() -> Guesses {
        Guesses { places: [0; 1024] }
    }

    /// Where a name may stand.
    #[inline(always)]
    pub fn place(&self, name: &[u8]) -> usize {
        usize::from(self.places[number_of(name)])
    }

    /// Notes where a name stands, if it is one of the first 256.
    pub fn note(&mut self, name: &[u8], place: usize) {
        self.places[number_of(name)] = place.min(255) as u8;
    }
}

// A number of a name, which few others have.
#[inline(always)]
fn number_of(name: &[u8]) -> usize
    ensures { result < 1024 }
{
    let mut number: u32 = 0;
    'bytes: for byte in name {
        number = number.wrapping_mul(31).wrapping_add(u32::from(*byte));
    }
    (number % 1024) as usize
}
