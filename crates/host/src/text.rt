// Texts, as hosts are told of them, and how they are found.
ghost use Rattle.std.specs.Prelude.{◌≡◌};
ghost use Rattle.host.specs.Hosts.{text_at};
ghost use Rattle.host.specs.View.{text_of};

/// What a host is told of a text: its bytes, without the 00 that ends it.
#[derive(Clone, Copy)]
pub struct Text<'a> {
    pub bytes: &'a [u8],
}

impl Text<'_> {
    /// What a host is told where there is no text: no bytes.
    pub const NONE: Text<'static> = Text { bytes: &[] };
}

/// The text at a position of a program's string bytes: those from there up to the first 00.
pub fn find_text(strings: &[u8], position: usize) -> Text<'_>
    ensures { text_of result ≡ text_at strings.now position }
{
    let Some(rest) = strings.get(position..) else {
        return Text::NONE;
    };
    let size = rest.iter().position(|b| *b == 0).unwrap_or(rest.len());
    Text {
        bytes: &rest[..size],
    }
}
