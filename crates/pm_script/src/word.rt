//! The words of a line.

ghost use Rattle.std.specs.Prelude.{◌≡◌, ◌==◌, position};
ghost use Rattle.std.specs.Option.{option_copied};
ghost use Rattle.pm_script.specs.Grammar.{BeginsWithWord};

/// The first word, and what stands after the space after it, or none where no space is left.
pub(crate) fn first_word(bytes: &[u8]) -> (&[u8], Option<&[u8]>)
    ensures { BeginsWithWord bytes.now result.0.now (option_copied result.1) }
{
    match space_position(bytes) {
        Some(i) => (&bytes[..i], Some(&bytes[i + 1..])),
        None => (bytes, None),
    }
}

// Where the first space is.
fn space_position(bytes: &[u8]) -> Option<usize>
    ensures { result ≡ position (λ b. b == 32) bytes.now }
{
    bytes.iter().position(|b| *b == b' ')
}
