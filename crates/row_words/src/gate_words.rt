//! The gate word: policy number, version and passes entered.

ghost use Rattle.std.specs.Prelude.{◌≡◌, ℕ, ◌+◌, ◌*◌, ◌%◌, ◌<◌};
ghost use Rattle.row_words.specs.Words;

/// The word that shows a policy number, its version and the passes entered.
pub fn gate_word(number: u32, ver: u8, passes: u64) -> u64
    requires number { number < 1048576 }
    requires passes { passes < 68719476736 }
    ensures { result ≡ Words.gate_word number ver passes }
{
    u64::from(number) * 17_592_186_044_416 + u64::from(ver) * 68_719_476_736 + passes
}

/// The policy number, the version and the passes entered that a word shows.
pub fn split_gate(w: u64) -> (u32, u8, u64)
    ensures fields { result ≡ Words.split_gate w }

    // What was packed comes back, and each word is the packing of its fields.
    ensures returns { (number ver passes : ℕ) → Words.IsGate number ver passes → w ≡ Words.gate_word number ver passes
        → result ≡ (number, ver, passes) }
    ensures whole { Words.IsGate result.0 result.1 result.2 × (w ≡ Words.gate_word result.0 result.1 result.2) }

    // Passes may be added without touching number and version while the sum is below 2^36.
    ensures bounded { (more : ℕ) → result.2 + more < 68719476736
        → Words.split_gate ((w + more) % 18446744073709551616) ≡ (result.0, result.1, result.2 + more) }
{
    (
        (w / 17_592_186_044_416) as u32,
        (w / 68_719_476_736 % 256) as u8,
        w % 68_719_476_736,
    )
}

/// What one addition to a gate word adds, so that the number becomes one more and the version `new` in place of
/// `old`, while the passes stay.
pub fn raise_by(old: u8, new: u8) -> u64
    ensures amount { result + old * 68719476736 ≡ 17592186044416 + new * 68719476736 }
    ensures raises { (number passes : ℕ) → number + 1 < 1048576 → passes < 68719476736
        → (Words.gate_word number old passes + result) % 18446744073709551616 ≡ Words.gate_word (number + 1) new passes }
{
    17_592_186_044_416 + u64::from(new) * 68_719_476_736 - u64::from(old) * 68_719_476_736
}
