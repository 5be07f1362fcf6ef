// The words of a command.
ghost use Rattle.std.specs.Prelude.{◌≡◌, ◌↔◌, ℕ, List, [], ◌∷◌, ◌++◌, Some, OnOk, OnErr, IfOk};
ghost use Rattle.std.specs.Prelude.{codes};
ghost use Rattle.std.specs.Str.{bytes_eq};
ghost use Rattle.cloud_run.specs.Commands.{command_of};

use crate::command::Command;
use cloud_base::{Memory, Sequence};
use std::alloc::Global;
use std::marker::Model;

// One word. Contracts see its bytes.
#[derive(Debug, Drop)]
struct Word {
    text: String,
}

impl Model for Word {
    ghost use Rattle.std.specs.Prelude.{ℕ, List, string_bytes};
    ghost use Rattle.std.specs.Coded.{coded_list, coded_ℕ};

    ghost Value = { List ℕ };

    ghost coded = { coded_list coded_ℕ };

    ghost view = { λ w. string_bytes w.text };
}

impl Word {
    fn new(alloc: Global, text: &str) -> Result<Word, Memory>
        ensures { IfOk result (λ word. word ≡ text.now) }
    {
        Ok(Word {
            text: String::from_str(alloc, text)?,
        })
    }

    fn is(&self, text: &str) -> bool
        ensures { result ≡ bytes_eq self.now text.now }
    {
        self.text.as_str() == text
    }
}

/// The words of a command, in order. Contracts see a list of lists of bytes.
#[derive(Debug, Drop)]
pub struct Words {
    alloc: Global,
    words: Sequence<Word>,
}

impl Model for Words {
    ghost use Rattle.std.specs.Prelude.{ℕ, List};
    ghost use Rattle.std.specs.Coded.{coded_list, coded_ℕ};

    ghost Value = { List (List ℕ) };

    ghost coded = { coded_list (coded_list coded_ℕ) };

    ghost view = { λ w. w.words };
}

impl Words {
    /// No words. Takes no memory.
    pub fn new(alloc: Global) -> Words
        ensures { result ≡ [] }
    {
        Words {
            alloc,
            words: Sequence::new(alloc),
        }
    }

    pub fn push(&mut self, word: &str) -> Result<(), Memory>
        ensures ok { OnOk result (self.new ≡ self.old ++ word.now ∷ []) }
        ensures err { OnErr result (self.new ≡ self.old) }
    {
        let word = Word::new(self.alloc, word)?;
        self.words.push(word)
    }

    /// The command whose words these are, if there is one.
    pub fn command(&self) -> Option<Command>
        ensures { result ≡ command_of self.now }
    {
        match self.words.as_slice() {
            [word] if word.is("check") => Some(Command::Check),
            [word] if word.is("code") => Some(Command::Code),
            [word] if word.is("play") => Some(Command::Play),
            _ => None,
        }
    }
}

/// The words of each command. No others are its.
#[tactic(auto, using(crate::proofs::Played::command_words))]
pub fn words_of_commands()
    ensures check { (words : List (List ℕ)) →
        (command_of words ≡ Some Command.Check) ↔ (words ≡ codes "check" ∷ []) }
    ensures code { (words : List (List ℕ)) →
        (command_of words ≡ Some Command.Code) ↔ (words ≡ codes "code" ∷ []) }
    ensures play { (words : List (List ℕ)) →
        (command_of words ≡ Some Command.Play) ↔ (words ≡ codes "play" ∷ []) }
{}
