//! A text parted at the first separator.
ghost use Rattle.std.specs.Prelude.{◌≡◌, ◌==◌, ◌∷◌, ◌+◌, IfSome, length};
ghost use Rattle.std.specs.List.{position, slice_split};
ghost use Rattle.journals.specs.Words.{parts_in};

fn first(text: &[u8], separator: u8) -> Option<usize>
    ensures { result ≡ position (λ byte. byte == separator) text.now }
{
    text.iter().position(|byte| *byte == separator)
}

/// What stands before the first separator, and what after it, where there is one.
pub fn split_once(text: &[u8], separator: u8) -> (&[u8], Option<&[u8]>)
    ensures parts { slice_split (λ byte. byte == separator) text.now ≡ result.0.now ∷ parts_in (λ byte. byte == separator) result.1 }
    ensures shorter { IfSome result.1 (λ rest. length result.0.now + length rest.now + 1 ≡ length text.now) }
{
    match first(text, separator) {
        Some(at) => (&text[..at], Some(&text[at + 1..])),
        None => (text, None),
    }
}
