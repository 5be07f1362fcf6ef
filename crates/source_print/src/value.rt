// How texts, numbers and names are printed.
ghost use Rattle.std.specs.Prelude.{◌≡◌, ◌++◌, ◌∷◌, [], OnOk, codes, decimal};
ghost use Rattle.std.specs.List.{flat_map};
ghost use Rattle.source_print.specs.Expressions.{escaped, quoted};

use cloud_base::Memory;
use itoa::Buffer;
use source_tokens::Identifier;

pub fn write(out: &mut Vec<u8>, text: &str) -> Result<(), Memory>
    ensures { OnOk result (out.new.items ≡ out.old.items ++ text.now) }
{
    out.extend_from_slice(text.as_bytes())?;
    Ok(())
}

pub fn write_name(out: &mut Vec<u8>, name: &Identifier) -> Result<(), Memory>
    ensures { OnOk result (out.new.items ≡ out.old.items ++ name.now) }
{
    write(out, name.name().as_str())
}

pub fn write_number(out: &mut Vec<u8>, number: u64) -> Result<(), Memory>
    ensures { OnOk result (out.new.items ≡ out.old.items ++ decimal number) }
{
    let mut buffer = Buffer::new();
    out.extend_from_slice(buffer.format(number).as_bytes())?;
    Ok(())
}

fn write_escaped(out: &mut Vec<u8>, byte: u8) -> Result<(), Memory>
    ensures { OnOk result (out.new.items ≡ out.old.items ++ escaped byte) }
{
    if byte == b'"' || byte == b'\\' {
        out.push(b'\\')?;
    }
    out.push(byte)?;
    Ok(())
}

pub fn write_quoted(out: &mut Vec<u8>, bytes: &[u8]) -> Result<(), Memory>
    ensures { OnOk result (out.new.items ≡ out.old.items ++ quoted bytes.now) }
{
    out.push(b'"')?;
    for byte in bytes {
        write_escaped(out, *byte)?;
    }
    out.push(b'"')?;
    Ok(())
}
