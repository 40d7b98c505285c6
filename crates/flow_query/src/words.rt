//! Rows of words, which tell between which types no route of a way leads.

ghost use Rattle.std.specs.Prelude.{◌≡◌, ℕ, ◌<◌, false, slice_index, length, bit_and, bit_or};
ghost use Rattle.policy_versions.specs.Sets.{has_place};

/// The words of one source, by the places of the targets. The fixed length lets a loop over them be compiled to wide
/// instructions.
#[derive(Clone, Copy)]
pub(crate) struct Words {
    pub(crate) words: [u16; 128],
}

impl Words {
    /// The words that are all 0.
    pub(crate) fn none() -> Words
        ensures { (t : ℕ) → has_place result.words t ≡ false }
    {
        Words { words: [0; 128] }
    }

    /// Joins to the word of each target what a vector on it has of some permissions.
    pub(crate) fn join(&mut self, vectors: &[u16; 128], perms: u16)
        ensures { (t : ℕ) → t < 128 → slice_index self.new.words t
            ≡ bit_or (slice_index self.old.words t) (bit_and (slice_index vectors.now t) perms) }
    {
        'targets: for t in 0..128usize {
            self.words[t] |= vectors[t] & perms;
        }
    }
}

/// For each source the words of the targets: one that is 0 tells that no route of a way leads between the two.
#[derive(Drop)]
pub(crate) struct Reach {
    pub(crate) rows: Vec<Words>,
    pub(crate) ghost whole: { length rows.items ≡ 128 },
}
