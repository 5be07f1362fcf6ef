// How the text of a drill is written.
ghost use Rattle.std.specs.Prelude.{◌≡◌, ◌+◌, ◌*◌, ◌≤◌, ◌++◌};
ghost use Rattle.std.specs.Prelude.{OnOk, IfOk, codes, length, decimal};
ghost use Rattle.drill_text.specs.Drills.{
  number_after,
  number_at,
  amount_of,
  item_of,
  group_by,
  group_text,
  groups_text,
  client_text,
  drill_text,
};

use cloud_base::Memory;
use itoa::Buffer;
use std::alloc::Global;

/// The number of groups of a client up to which the text is short enough to be a source.
pub const MOST_GROUPS: u32 = 1_000;

// By which the numbers of draws follow each other.
const FACTOR: u64 = 6364136223846793005;

const TERM: u64 = 1442695040888963407;

const SCHEMA: &str =
    "schema { global total : CInt; array Stock[item: string] { n: CInt; note: CString } \
    entity Order { count: CInt } }\n";

fn following(number: u64) -> u64
    ensures { result ≡ number_after number }
{
    number.wrapping_mul(FACTOR).wrapping_add(TERM)
}

fn write(out: &mut Vec<u8>, text: &str) -> Result<(), Memory>
    ensures { OnOk result (out.new.items ≡ out.old.items ++ text.now) }
{
    out.extend_from_slice(text.as_bytes())?;
    Ok(())
}

fn write_number(out: &mut Vec<u8>, number: u64) -> Result<(), Memory>
    ensures { OnOk result (out.new.items ≡ out.old.items ++ decimal number) }
{
    let mut buffer = Buffer::new();
    write(out, buffer.format(number))
}

fn write_amount(out: &mut Vec<u8>, draw: u64) -> Result<(), Memory>
    ensures { OnOk result (out.new.items ≡ out.old.items ++ amount_of draw) }
{
    write_number(out, (draw >> 40) % 100)
}

fn write_item(out: &mut Vec<u8>, draw: u64) -> Result<(), Memory>
    ensures { OnOk result (out.new.items ≡ out.old.items ++ item_of draw) }
{
    write_number(out, (draw >> 50) % 10)
}

// An update whose argument is the amount.
fn write_update(out: &mut Vec<u8>, before: &str, draw: u64, after: &str) -> Result<(), Memory>
    ensures { OnOk result (out.new.items
        ≡ out.old.items ++ (before.now ++ amount_of draw ++ after.now)) }
{
    write(out, before)?;
    write_amount(out, draw)?;
    write(out, after)
}

// An update of the item's stock.
fn write_stock(out: &mut Vec<u8>, draw: u64, before: &str, after: &str) -> Result<(), Memory>
    ensures { OnOk result (out.new.items
        ≡ out.old.items
        ++ (codes "Stock[\"k" ++ item_of draw ++ before.now ++ amount_of draw ++ after.now)) }
{
    write(out, "Stock[\"k")?;
    write_item(out, draw)?;
    write_update(out, before, draw, after)
}

fn write_group(out: &mut Vec<u8>, draw: u64) -> Result<(), Memory>
    ensures { OnOk result (out.new.items ≡ out.old.items ++ group_text draw) }
{
    match draw >> 61 {
        0 => write_update(out, "total.add(", draw, ");\n"),
        1 => write_stock(out, draw, "\"].n.add(", ");\n"),
        2 => write_stock(out, draw, "\"].note.setIfEmpty(\"", "\");\n"),
        3 => write_update(
            out,
            "if true { var o = new Order; o.count.add(",
            draw,
            "); }\n",
        ),
        4 => write(out, "print total;\n"),
        5 => write(out, "foreach o in all Order { delete o; }\n"),
        6 => write(out, "yield;\n"),
        _ => write(out, "flush;\n"),
    }
}

// The groups of a client, from the number of the draw before. The number of the last draw comes
// back.
fn write_groups(out: &mut Vec<u8>, n: u32, client: u8, before: u64) -> Result<u64, Memory>
    requires { before ≡ number_at n (client * n) }
    ensures text { OnOk result (out.new.items ≡ out.old.items ++ groups_text n client n) }
    ensures last { IfOk result (λ last. last ≡ number_at n (client * n + n)) }
{
    let mut number = before;
    for group in 0..n {
        number = following(number);
        write_group(out, number)?;
    }
    Ok(number)
}

fn write_client(out: &mut Vec<u8>, n: u32, client: u8, before: u64) -> Result<u64, Memory>
    requires { before ≡ number_at n (client * n) }
    ensures text { OnOk result (out.new.items ≡ out.old.items ++ client_text n client) }
    ensures last { IfOk result (λ last. last ≡ number_at n (client * n + n)) }
{
    write(out, "client c")?;
    write_number(out, u64::from(client))?;
    write(out, " {\n")?;
    let last = write_groups(out, n, client, before)?;
    write(out, "flush;\n}\n")?;
    Ok(last)
}

/// The source of a program of four clients, each with `n` groups and a last flush. It is no longer
/// than a source may be for up to `MOST_GROUPS` groups.
pub fn drill(alloc: Global, n: u32) -> Result<Vec<u8>, Memory>
    ensures text { IfOk result (λ text. text.items ≡ drill_text n) }
    ensures short { n ≤ MOST_GROUPS → IfOk result (λ text. length text.items ≤ 262144) }
{
    let mut out = Vec::new(alloc);
    write(&mut out, SCHEMA)?;
    let mut number = u64::from(n);
    for client in 0..4 {
        number = write_client(&mut out, n, client, number)?;
    }
    Ok(out)
}
