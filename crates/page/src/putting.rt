//! Markup, and texts that are none.
ghost use Rattle.std.specs.Prelude.{◌≡◌, ◌++◌, OnOk};
ghost use Rattle.page.specs.Shown.{shown, shown_byte};

use std::alloc::AllocError;

// Adds a byte of a text.
fn put_byte(page: &mut Vec<u8>, byte: u8) -> Result<(), AllocError>
    ensures { OnOk result (page.new.items ≡ page.old.items ++ shown_byte byte) }
{
    match byte {
        b'&' => page.extend_from_slice(b"&amp;"),
        b'<' => page.extend_from_slice(b"&lt;"),
        b'>' => page.extend_from_slice(b"&gt;"),
        b'"' => page.extend_from_slice(b"&quot;"),
        _ => {
            page.push(byte)?;
            Ok(())
        }
    }
}

// Adds a text.
fn put_text(page: &mut Vec<u8>, text: &[u8]) -> Result<(), AllocError>
    ensures { OnOk result (page.new.items ≡ page.old.items ++ shown text.now) }
{
    for byte in text {
        put_byte(page, *byte)?;
    }
    Ok(())
}

/// Adds markup, and a text behind it.
pub(crate) fn put(page: &mut Vec<u8>, markup: &str, text: &[u8]) -> Result<(), AllocError>
    ensures { OnOk result (page.new.items ≡ page.old.items ++ (markup.now ++ shown text.now)) }
{
    page.extend_from_slice(markup.as_bytes())?;
    put_text(page, text)
}

/// Adds markup.
pub(crate) fn put_markup(page: &mut Vec<u8>, markup: &str) -> Result<(), AllocError>
    ensures { OnOk result (page.new.items ≡ page.old.items ++ markup.now) }
{
    page.extend_from_slice(markup.as_bytes())
}
