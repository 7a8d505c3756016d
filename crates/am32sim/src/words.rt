// The words of a command line.
ghost use Rattle.std.specs.Prelude.{◌≡◌, ◌≤◌, ◌∷◌, ◌++◌, [], OnOk, OnErr, IfSome, option_map};
ghost use Rattle.am32sim.specs.Words.{asked, CostFits};
ghost use Rattle.am32sim.specs.Run.{config_of};
ghost use Rattle.am32sim.specs.Options.{asked_of};

use crate::options::{Command, Options, first_word, options_in};
use esc_base::NoMemory;
use interrupt_machine::Nest;
use std::alloc::Global;
use std::marker::Model;
use trace_runner::RunConfig;

/// The words behind the program's name, in their order. Contracts see a list of texts.
#[derive(Drop)]
pub struct Words {
    alloc: Global,
    texts: Vec<String>,
}

impl Model for Words {
    ghost use Rattle.std.specs.Prelude.{List, ℕ, map, string_bytes};

    ghost Value = { List (List ℕ) };

    ghost view = { λ w. map (λ text. string_bytes text) w.texts.items };
}

impl Words {
    /// No words yet.
    pub fn new(alloc: Global) -> Words
        ensures { result ≡ [] }
    {
        Words {
            alloc,
            texts: Vec::new(alloc),
        }
    }

    /// Adds a word at the end. Where memory is wanting the words stay as they were.
    pub fn push(&mut self, word: &str) -> Result<(), NoMemory>
        ensures ok { OnOk result (self.new ≡ self.old ++ word.now ∷ []) }
        ensures err { OnErr result (self.new ≡ self.old) }
    {
        let Ok(text) = String::from_str(self.alloc, word) else {
            return Err(NoMemory);
        };
        match self.texts.push(text) {
            Ok(()) => Ok(()),
            Err(_) => Err(NoMemory),
        }
    }

    /// What the words ask for, or `None` where they are in no command's grammar.
    #[tactic(auto, using(crate::proofs::Grammar::is_asked, crate::proofs::Grammar::no_command, crate::proofs::Grammar::no_options, crate::proofs::Grammar::not_asked))]
    pub fn asked(&self) -> Option<Asked<'_>>
        ensures is { option_map (λ a. asked_of a) result ≡ asked self.now }
        ensures fits { IfSome result (λ a. CostFits a.options.cost) }
    {
        let Some((first, rest)) = first_word(self.texts.as_slice()) else {
            return None;
        };
        let Some(command) = Command::named(first) else {
            return None;
        };
        match options_in(command, Options::new(), rest) {
            Some(options) => Some(Asked { command, options }),
            None => None,
        }
    }
}

/// A command with its options.
#[derive(Clone, Copy, Drop)]
pub struct Asked<'a> {
    pub command: Command,
    pub options: Options<'a>,
}

impl Asked<'_> {
    /// How the run is made: with a step cost of 2 and every nesting, where the words don't say otherwise.
    pub fn config(&self) -> RunConfig
        requires { CostFits self.now.options.cost }
        ensures is { result ≡ config_of (asked_of self.now) }
        ensures some { 1 ≤ result.cost }
        ensures most { result.cost ≤ 16 }
    {
        RunConfig {
            cost: self.options.cost.unwrap_or(2),
            nest: self.options.nest.unwrap_or(Nest::Full),
        }
    }
}
