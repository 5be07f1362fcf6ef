// Values as the definitions read them: where one isn't of the kind that is wanted, as 0, an empty
// text, false, or the first client's first id.
ghost use Rattle.std.specs.Prelude.{◌≡◌};
ghost use Rattle.typed_program.specs.Does.{listed};
ghost use Rattle.typed_program.specs.Trace.{int_of, text_of, truth_of, id_of, key_of, value_of};
ghost use Rattle.typed_program.specs.Trace.{change_of};
ghost use Rattle.plain_vm.specs.Exec.{literal_value};

use cloud_base::{Answer, CellChange, Key, Text, Uid};
use plain_vm::Literal;
use typed_program::Operation;

pub fn int_of(value: &Answer) -> i64
    ensures { result ≡ int_of value.now }
{
    match value {
        Answer::Int(number) => *number,
        _ => 0,
    }
}

pub fn text_of(value: &Answer) -> Text
    ensures { result ≡ text_of value.now }
{
    match value {
        Answer::Text(text) => text.copied(),
        _ => Text::empty(),
    }
}

pub fn truth_of(value: &Answer) -> bool
    ensures { result ≡ truth_of value.now }
{
    match value {
        Answer::Truth(truth) => *truth,
        _ => false,
    }
}

pub fn id_of(value: &Answer) -> Uid
    ensures { result ≡ id_of value.now }
{
    match value {
        Answer::Id(id) => *id,
        _ => Uid::new(0, 0),
    }
}

pub fn key_of(value: &Answer) -> Key
    ensures { result ≡ key_of value.now }
{
    match value {
        Answer::Int(number) => Key::Int(*number),
        Answer::Text(text) => Key::Text(text.copied()),
        Answer::Id(id) => Key::Ref(*id),
        _ => Key::Int(0),
    }
}

pub fn value_of(key: &Key) -> Answer
    ensures { result ≡ value_of key.now }
{
    match key {
        Key::Int(number) => Answer::Int(*number),
        Key::Text(text) => Answer::Text(text.copied()),
        Key::Ref(id) => Answer::Id(*id),
    }
}

pub fn literal_value(literal: &Literal) -> Answer
    ensures { result ≡ literal_value literal.now }
{
    match literal {
        Literal::Int(number) => Answer::Int(*number),
        Literal::Text(text) => Answer::Text(text.copied()),
        Literal::Truth(truth) => Answer::Truth(*truth),
    }
}

pub fn change_of(operation: Operation, value: &Answer) -> CellChange
    ensures { result ≡ change_of operation value.now }
{
    match operation {
        Operation::Add => CellChange::Add(int_of(value)),
        Operation::Set => match value {
            Answer::Text(text) => CellChange::SetText(text.copied()),
            _ => CellChange::SetInt(int_of(value)),
        },
        Operation::SetIfEmpty => CellChange::SetIfEmpty(text_of(value)),
    }
}

// How many items an answer lists.
pub fn listed(answer: &Answer) -> usize
    ensures { result ≡ listed answer.now }
{
    match answer {
        Answer::Ids(ids) => ids.len(),
        Answer::Tuples(tuples) => tuples.len(),
        _ => 0,
    }
}
