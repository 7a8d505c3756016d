//! The commands and their options.
ghost use Rattle.std.specs.Prelude.{◌≡◌, ◌∷◌, ◌≤◌, ◌<◌, [], true, false, None, IfSome, MatchOption, option_map, map, length, string_bytes};
ghost use Rattle.std.specs.List.{before_first, after_first};
ghost use Rattle.am32sim.specs.Words.{command_named, runs, Given, CostFits, nothing, nest_in, path_in, with_cost, with_nest, with_image, options, with_option, given_by, has_value, is_equals};
ghost use Rattle.am32sim.specs.Options.{given_of};

use interrupt_machine::Nest;
use trace_text::number_in;

/// A command.
#[derive(Clone, Copy, Debug, PartialEq, Eq, Drop)]
pub enum Command {
    /// Run the core on a trace.
    Run,
    /// Show the settings in a flash.
    Show,
}

impl Command {
    pub(crate) fn named(name: &str) -> Option<Command>
        ensures { result ≡ command_named name.now }
    {
        if name == "run" {
            Some(Command::Run)
        } else if name == "show" {
            Some(Command::Show)
        } else {
            None
        }
    }

    /// Whether it makes a run.
    fn runs(self) -> bool
        ensures { result ≡ runs self }
    {
        match self {
            Command::Run => true,
            Command::Show => false,
        }
    }
}

/// What options have given, each at most once.
#[derive(Clone, Copy, Drop)]
pub struct Options<'a> {
    /// The ticks from one step to the next, 1 to 16.
    pub cost: Option<u32>,
    /// Which kinds may enter while a handler is open.
    pub nest: Option<Nest>,
    /// The path of the flash's image.
    pub image: Option<&'a str>,
}

fn nest_in(value: &str) -> Option<Nest>
    ensures { result ≡ nest_in value.now }
{
    if value == "1" {
        Some(Nest::One)
    } else if value == "7" {
        Some(Nest::Full)
    } else {
        None
    }
}

/// A path of 1 to 255 bytes that doesn't begin with `-`.
fn path_in(value: &str) -> Option<&str>
    ensures { option_map (λ p. p.now) result ≡ path_in value.now }
{
    match value.as_bytes() {
        [first, ..] if *first != b'-' && value.len() <= 255 => Some(value),
        _ => None,
    }
}

impl<'a> Options<'a> {
    /// None yet.
    pub(crate) fn new() -> Options<'a>
        ensures is { given_of result ≡ nothing }
        ensures fits { CostFits result.cost }
    {
        Options {
            cost: None,
            nest: None,
            image: None,
        }
    }

    fn with_cost(self, value: &'a str) -> Option<Options<'a>>
        requires { CostFits self.cost }
        ensures is { option_map given_of result ≡ with_cost value.now (given_of self.entry) }
        ensures fits { IfSome result (λ o. CostFits o.cost) }
    {
        if self.cost.is_some() {
            return None;
        }
        match number_in(value.as_bytes(), 1, 16) {
            Some(cost) => Some(Options {
                cost: Some(cost),
                ..self
            }),
            None => None,
        }
    }

    fn with_nest(self, value: &'a str) -> Option<Options<'a>>
        requires { CostFits self.cost }
        ensures is { option_map given_of result ≡ with_nest value.now (given_of self.entry) }
        ensures fits { IfSome result (λ o. CostFits o.cost) }
    {
        if self.nest.is_some() {
            return None;
        }
        match nest_in(value) {
            Some(nest) => Some(Options {
                nest: Some(nest),
                ..self
            }),
            None => None,
        }
    }

    fn with_image(self, value: &'a str) -> Option<Options<'a>>
        requires { CostFits self.cost }
        ensures is { option_map given_of result ≡ with_image value.now (given_of self.entry) }
        ensures fits { IfSome result (λ o. CostFits o.cost) }
    {
        if self.image.is_some() {
            return None;
        }
        match path_in(value) {
            Some(path) => Some(Options {
                image: Some(path),
                ..self
            }),
            None => None,
        }
    }

    /// With one option more. `None` where the command has no such option, it was given before, or its value isn't one.
    fn with(self, command: Command, name: &str, value: &'a str) -> Option<Options<'a>>
        requires { CostFits self.cost }
        ensures fits { IfSome result (λ o. CostFits o.cost) }
        ensures is { option_map given_of result ≡ with_option options command name.now value.now (given_of self.entry) }
    {
        if name == "--cost" && command.runs() {
            return self.with_cost(value);
        }
        if name == "--nest" && command.runs() {
            return self.with_nest(value);
        }
        if name == "--flash" {
            return self.with_image(value);
        }
        None
    }
}

/// The first word, and those behind it.
pub(crate) fn first_word(words: &[String]) -> Option<(&str, &[String])>
    ensures first { MatchOption result (map (λ word. string_bytes word) words.now ≡ [])
        (λ r. map (λ word. string_bytes word) words.now ≡ r.0.now ∷ map (λ word. string_bytes word) r.1.now) }
    ensures fewer { IfSome result (λ r. length r.1.now < length words.now) }
{
    match words {
        [] => None,
        [word, rest @ ..] => Some((word.as_str(), rest)),
    }
}

/// The name and the value of `name=value`.
fn name_and_value(word: &str) -> Option<(&str, &str)>
    ensures { MatchOption result (has_value word.now ≡ false) (λ r. (has_value word.now ≡ true) × (r.0.now ≡ before_first is_equals word.now)
        × (r.1.now ≡ after_first is_equals word.now)) }
{
    word.split_once('=')
}

/// The options that the words behind a command give, added to these.
#[tactic(auto, using(crate::proofs::Grammar::no_words, crate::proofs::Grammar::one_word, crate::proofs::Grammar::one_word_wrong, crate::proofs::Grammar::name_alone, crate::proofs::Grammar::two_words, crate::proofs::Grammar::two_words_wrong))]
pub(crate) fn options_in<'a>(
    command: Command,
    options: Options<'a>,
    words: &'a [String],
) -> Option<Options<'a>>
    requires { CostFits options.cost }
    ensures fits { IfSome result (λ o. CostFits o.cost) }
    ensures is { option_map given_of result ≡ given_by command (given_of options.entry) None (map (λ word. string_bytes word) words.entry.now) }
{
    let Some((word, rest)) = first_word(words) else {
        return Some(options);
    };
    match name_and_value(word) {
        Some((name, value)) => match options.with(command, name, value) {
            Some(options) => options_in(command, options, rest),
            None => None,
        },
        None => match first_word(rest) {
            Some((value, rest)) => match options.with(command, word, value) {
                Some(options) => options_in(command, options, rest),
                None => None,
            },
            None => None,
        },
    }
}
