//! The words after the program's name.

ghost use Rattle.std.specs.Prelude.{◌≡◌, [], ◌∷◌, ◌++◌, IfOk, OnOk, OnErr, map, option_map};
ghost use Rattle.std.specs.List.{list_all};
ghost use Rattle.std.specs.String.{string_bytes};
ghost use Rattle.dn_words.specs.Terms.{HasAgents, is_plain_word, task_of, task_of_parts, task_of_word};

use crate::split::CommandWords;
use crate::{OutOfMemory, number, split};
use std::alloc::Global;
use std::marker::Model;

/// What the words ask for.
#[derive(Clone, Copy, Debug, PartialEq, Eq)]
pub enum Task {
    /// To answer the commands of the text: `run`.
    Run,
    /// To print the net of the text: `check`.
    Check,
    /// To say what each agent sees under an image: `audit`.
    Audit,
    /// To run the demonstration with so many agents, from 1 to 64: `demo N`.
    Demo(u8),
}

/// The words after the program's name, which contracts see as a list of texts.
#[derive(Drop)]
pub struct Words {
    list: Vec<String>,
}

impl Model for Words {
    ghost use Rattle.std.specs.Prelude.{List, ℕ, map};
    ghost use Rattle.std.specs.String.{string_bytes};

    ghost Value = { List (List ℕ) };

    ghost view = { λ w. map (λ s. string_bytes s) w.list.items };
}

impl Words {
    /// No words. It keeps the allocator and takes no memory.
    pub fn new(alloc: Global) -> Words
        ensures { result ≡ [] }
    {
        Words {
            list: Vec::new(alloc),
        }
    }

    /// Appends a word. For want of memory the words are unchanged.
    pub fn push(&mut self, word: &str) -> Result<(), OutOfMemory>
        ensures ok { OnOk result (self.new ≡ self.old ++ word.now ∷ []) }
        ensures err { OnErr result (self.new ≡ self.old) }
    {
        let alloc = *self.list.allocator();
        let text = String::from_str(alloc, word)?;
        self.list.push(text)?;
        Ok(())
    }

    /// What the words ask for. `None` exactly where they are of none of the forms: so it is where a word
    /// begins with `-`. `Err` is want of memory.
    pub fn task(&self) -> Result<Option<Task>, OutOfMemory>
        ensures task { IfOk result (λ task. task ≡ task_of self.now) }
        ensures agents { IfOk result HasAgents }
    {
        let words = self.list.as_slice();
        if !are_plain(words) {
            return Ok(None);
        }
        let alloc = *self.list.allocator();
        match split::split(alloc, words)? {
            Some(parts) => Ok(task_of_parts(&parts)),
            None => Ok(None),
        }
    }
}

/// Whether no word begins with `-`.
fn are_plain(words: &[String]) -> bool
    ensures { result ≡ list_all (λ s. is_plain_word (string_bytes s)) words.now }
{
    words
        .iter()
        .all(|word| !word.as_str().as_bytes().starts_with(b"-"))
}

/// What a command and the word behind it ask for.
fn task_of_parts(parts: &CommandWords) -> Option<Task>
    ensures agents { HasAgents result }
    ensures task { result
        ≡ task_of_parts parts.now.command.now (option_map (λ s. s.now) parts.now.number) }
{
    match parts.number {
        None => task_of_word(parts.command),
        Some(number) => {
            if parts.command == "demo" {
                number::agents(number).map(|agents| Task::Demo(agents))
            } else {
                None
            }
        }
    }
}

/// What a single word asks for.
fn task_of_word(word: &str) -> Option<Task>
    ensures agents { HasAgents result }
    ensures task { result ≡ task_of_word word.now }
{
    if word == "run" {
        Some(Task::Run)
    } else if word == "check" {
        Some(Task::Check)
    } else if word == "audit" {
        Some(Task::Audit)
    } else {
        None
    }
}
