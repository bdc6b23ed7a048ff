// Bytes of a source in a page: those that could end an element or the value of an attribute stand there by their names.

ghost use Rattle.std.specs.Prelude.{◌≡◌, ◌++◌, ◌∷◌, [], OnOk};
ghost use Rattle.std.specs.List.{flat_map};
ghost use Rattle.vx_page.specs.Escaped.{StaysInside, escaped};

use vx_base::outcome::NoMemory;

/// Puts bytes at the end.
fn push_bytes(out: &mut Vec<u8>, bytes: &[u8]) -> Result<(), NoMemory>
    ensures { OnOk result (out.new.items ≡ out.old.items ++ bytes.now) }
{
    out.extend_from_slice(bytes)?;
    Ok(())
}

/// Puts a byte at the end as it is.
fn push_byte(out: &mut Vec<u8>, byte: u8) -> Result<(), NoMemory>
    ensures { OnOk result (out.new.items ≡ out.old.items ++ byte ∷ []) }
{
    out.push(byte)?;
    Ok(())
}

/// Puts a byte at the end, by its name where it is one of `<`, `>`, `&` and the quotes.
fn push_escaped_byte(out: &mut Vec<u8>, byte: u8) -> Result<(), NoMemory>
    ensures { OnOk result (out.new.items ≡ out.old.items ++ escaped byte) }
{
    match byte {
        60 => push_bytes(out, b"&lt;"),
        62 => push_bytes(out, b"&gt;"),
        38 => push_bytes(out, b"&amp;"),
        34 => push_bytes(out, b"&quot;"),
        39 => push_bytes(out, b"&#39;"),
        other => push_byte(out, other),
    }
}

/// Puts bytes of a source at the end of a page: each as it is, or by its name.
pub fn push_escaped(out: &mut Vec<u8>, bytes: &[u8]) -> Result<(), NoMemory>
    ensures { OnOk result (out.new.items ≡ out.old.items ++ flat_map escaped bytes.now) }
{
    for byte in bytes {
        push_escaped_byte(out, *byte)?;
    }
    Ok(())
}

/// Whatever stands in a source, none of the bytes that are put for it is `<`, `>` or a quote. It does nothing.
#[tactic(auto, using(crate::proofs::Inside::stays_inside))]
pub fn escaped_stays_inside()
    ensures { StaysInside }
{}
