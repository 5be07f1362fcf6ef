// The canonical text of a program.
ghost use Rattle.std.specs.Prelude.{◌≡◌, ◌++◌, OnOk, IfOk, codes, []};
ghost use Rattle.std.specs.List.{flat_map};
ghost use Rattle.source_print.specs.Canonical.{
  declaration_text,
  client_text,
  fate_text,
  item_text,
  schedule_text,
  canonical,
};

use crate::declaration::write_declaration;
use crate::statement::write_block;
use crate::value::{write, write_name, write_number};
use cloud_base::{Fate, Memory, Sequence};
use source_tree::{Client, Declaration, Item, Program, Tree};
use std::alloc::Global;

fn write_declarations(out: &mut Vec<u8>, declarations: &[Declaration]) -> Result<(), Memory>
    ensures { OnOk result (out.new.items
        ≡ out.old.items ++ flat_map declaration_text declarations.now) }
{
    for declaration in declarations {
        write_declaration(out, declaration)?;
    }
    Ok(())
}

fn write_client(alloc: Global, out: &mut Vec<u8>, client: &Client) -> Result<(), Memory>
    ensures { OnOk result (out.new.items ≡ out.old.items ++ client_text client.now) }
{
    write(out, "client ")?;
    write_name(out, &client.name)?;
    write(out, " ")?;
    write_block(alloc, out, b"", client.body.as_slice())?;
    write(out, "\n")
}

fn write_clients(alloc: Global, out: &mut Vec<u8>, clients: &[Client]) -> Result<(), Memory>
    ensures { OnOk result (out.new.items ≡ out.old.items ++ flat_map client_text clients.now) }
{
    for client in clients {
        write_client(alloc, out, client)?;
    }
    Ok(())
}

fn fate_text(fate: Fate) -> &'static str
    ensures { result.now ≡ fate_text fate }
{
    match fate {
        Fate::Pass => " pass",
        Fate::LosePush => " losepush",
        Fate::LoseReply => " losereply",
        Fate::Twice => " twice",
        Fate::Hold => " hold",
    }
}

fn write_item(out: &mut Vec<u8>, item: &Item) -> Result<(), Memory>
    ensures { OnOk result (out.new.items ≡ out.old.items ++ item_text item.now) }
{
    match item {
        Item::Steps(name, count) => {
            write(out, "  ")?;
            write_name(out, name)?;
            write(out, " ")?;
            write_number(out, *count)?;
            write(out, ";\n")
        }
        Item::Serve(name, fate) => {
            write(out, "  serve ")?;
            write_name(out, name)?;
            write(out, fate_text(*fate))?;
            write(out, ";\n")
        }
    }
}

fn write_items(out: &mut Vec<u8>, items: &[Item]) -> Result<(), Memory>
    ensures { OnOk result (out.new.items ≡ out.old.items ++ flat_map item_text items.now) }
{
    for item in items {
        write_item(out, item)?;
    }
    Ok(())
}

fn write_plan(out: &mut Vec<u8>, items: &[Item]) -> Result<(), Memory>
    ensures { OnOk result (out.new.items
        ≡ out.old.items ++ (codes "schedule {\n" ++ flat_map item_text items.now ++ codes "}\n")) }
{
    write(out, "schedule {\n")?;
    write_items(out, items)?;
    write(out, "}\n")
}

fn write_schedule(out: &mut Vec<u8>, schedule: &Option<Sequence<Item>>) -> Result<(), Memory>
    ensures { OnOk result (out.new.items ≡ out.old.items ++ schedule_text schedule.now) }
{
    match schedule {
        None => Ok(()),
        Some(items) => write_plan(out, items.as_slice()),
    }
}

fn write_program(alloc: Global, out: &mut Vec<u8>, program: &Program) -> Result<(), Memory>
    ensures { OnOk result (out.new.items ≡ out.old.items ++ canonical program.now) }
{
    write(out, "schema {\n")?;
    write_declarations(out, program.declarations.as_slice())?;
    write(out, "}\n")?;
    write_clients(alloc, out, program.clients.as_slice())?;
    write_schedule(out, &program.schedule)
}

/// The canonical text of a program.
pub fn print_program(alloc: Global, program: &Program) -> Result<Vec<u8>, Memory>
    ensures { IfOk result (λ text. text.items ≡ canonical program.now) }
{
    let mut out = Vec::new(alloc);
    write_program(alloc, &mut out, program)?;
    Ok(out)
}

/// The canonical text of a tree.
pub fn print(alloc: Global, tree: &Tree) -> Result<Vec<u8>, Memory>
    ensures { IfOk result (λ text. text.items ≡ canonical tree.now) }
{
    print_program(alloc, tree.program())
}
