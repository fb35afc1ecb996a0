//! Text as markup.
ghost use Rattle.std.specs.Prelude.{◌≡◌, ◌++◌, OnOk, IfOk, string_bytes};
ghost use Rattle.allocative_picture.specs.Escape.{escaped_char, escaped};

use std::alloc::{AllocError, Global};

/// The markup of a text. A reader of the markup finds the text, with U+FFFD in place of each ASCII control, U+FFFE and
/// U+FFFF. The only error is that memory runs out.
pub fn escaped(alloc: Global, text: &str) -> Result<String, AllocError>
    ensures { IfOk result (λ made. string_bytes made ≡ escaped text.now) }
{
    let mut made = String::new(alloc);
    for c in text.chars() {
        push_escaped_char(c, &mut made)?;
    }
    Ok(made)
}

/// Appends the markup of a character.
fn push_escaped_char(c: char, text: &mut String) -> Result<(), AllocError>
    ensures { OnOk result (string_bytes text.new ≡ string_bytes text.old ++ escaped_char c) }
{
    match c {
        '&' => text.push_str("&amp;"),
        '<' => text.push_str("&lt;"),
        '>' => text.push_str("&gt;"),
        '"' => text.push_str("&quot;"),
        '\'' => text.push_str("&#39;"),
        '\0'..='\x1f' | '\x7f' | '\u{fffe}' | '\u{ffff}' => text.push('\u{fffd}'),
        c => text.push(c),
    }
}
