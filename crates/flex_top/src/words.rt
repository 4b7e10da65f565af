ghost use Rattle.std.specs.Prelude.{◌≡◌, ◌<◌, ◌≤◌, List, ℕ, [], ◌∷◌, ◌++◌, map, length, Some, None, All, option_map, IfOk, IfSome, if◌then◌else◌, string_bytes};
ghost use Rattle.std.specs.List.{list_all};
ghost use Rattle.flex_top.specs.Words.{reading, run_reading, with_options, reading_of_command, is_name, is_option, is_digit, number_of, number, hart_of, is_order, value_of, values, number_option, name_option, named, order_option, is_named, reading_by, IsGiven, IsLimited};

use flex_base::Settings;
use std::alloc::{AllocError, Global};

/// What `solo` or `run` is asked to do.
#[derive(Clone, Copy, Debug)]
pub struct Command<'a> {
    /// The name of the image's file.
    pub image: &'a str,
    /// The name of the file that the trace goes to.
    pub trace: &'a str,
    /// The size of the run. All harts together make at most 262,144 ends.
    pub settings: Settings,
    /// The name of the file that is the plan; where there is none, the plan is the default one.
    pub plan: Option<&'a str>,
    /// The name of the file that is the console's input; where there is none, the input is empty.
    pub input: Option<&'a str>,
    /// Which harts make the next events before the rounds: at most 65,536 characters, each of
    /// which names a hart. Empty for `run`.
    pub order: &'a [u8],
}

// How often an option is given, and its value where it is given once.
#[derive(Clone, Copy)]
pub enum Given<'a> {
    Never,
    Once(&'a str),
    Twice,
}

const MEBIBYTE: u64 = 1_048_576;

/// The command that these words are: `solo IMAGE TRACE`, and then any of the options `--harts=`,
/// `--ram=`, `--budget=`, `--plan=`, `--input=` and `--order=`, each at most once. Other words have no
/// reading.
pub fn read_solo(words: &[String]) -> Option<Command<'_>>
    ensures reading { option_map reading_of_command result ≡ reading (map string_bytes words.now) }
    ensures limits { IfSome result IsLimited }
{
    read_words("solo", true, words)
}

/// The same of `run IMAGE TRACE`, which takes no `--order=`.
pub fn read_run(words: &[String]) -> Option<Command<'_>>
    ensures reading { option_map reading_of_command result ≡ run_reading (map string_bytes words.now) }
    ensures limits { IfSome result IsLimited }
{
    read_words("run", false, words)
}

// A command of this name, where an order may be given or not.
fn read_words<'a>(name: &str, ordered: bool, words: &'a [String]) -> Option<Command<'a>>
    ensures reading { option_map reading_of_command result ≡ reading_by name.now ordered (map string_bytes words.now) }
    ensures limits { IfSome result IsLimited }
{
    match words {
        [command, image, trace, rest @ ..] => {
            let (image, trace) = (image.as_str(), trace.as_str());
            if is_named(name, command.as_str(), image, trace) && are_options(ordered, rest) {
                with_options(image, trace, rest)
            } else {
                None
            }
        }
        _ => None,
    }
}

fn is_named(name: &str, command: &str, image: &str, trace: &str) -> bool
    ensures { result ≡ is_named name.now command.now image.now trace.now }
{
    command == name && is_name(image) && is_name(trace)
}

fn is_name(word: &str) -> bool
    ensures { result ≡ is_name word.now }
{
    match word.as_bytes() {
        [] => false,
        [first, ..] => *first != b'-',
    }
}

fn are_options(ordered: bool, words: &[String]) -> bool
    ensures { result ≡ list_all (is_option ordered) (map string_bytes words.now) }
{
    for word in words {
        if !is_option(ordered, word.as_bytes()) {
            return false;
        }
    }
    true
}

fn is_option(ordered: bool, word: &[u8]) -> bool
    ensures { result ≡ is_option ordered word.now }
{
    word.starts_with(b"--harts=")
        || word.starts_with(b"--ram=")
        || word.starts_with(b"--budget=")
        || word.starts_with(b"--plan=")
        || word.starts_with(b"--input=")
        || (ordered && word.starts_with(b"--order="))
}

fn with_options<'a>(image: &'a str, trace: &'a str, words: &'a [String]) -> Option<Command<'a>>
    ensures reading { option_map reading_of_command result
        ≡ with_options image.now trace.now (map string_bytes words.now) }
    ensures limits { IfSome result IsLimited }
{
    let harts = number_option("--harts=", 1, 32, words)?;
    let mebibytes = number_option("--ram=", 16, 256, words)?;
    let budget = number_option("--budget=", 8192, 262_144, words)?;
    let plan = name_option("--plan=", words)?;
    let input = name_option("--input=", words)?;
    let order = order_option(words)?;
    if harts * budget > 262_144 {
        return None;
    }
    let settings = Settings {
        harts: harts as u8,
        ram: MEBIBYTE * mebibytes,
        budget,
    };
    Some(Command {
        image,
        trace,
        settings,
        plan,
        input,
        order,
    })
}

// The value of an option that is a number from 1 up to `most`.
fn number_option(name: &str, default: u64, most: u64, words: &[String]) -> Option<u64>
    requires default { 1 ≤ default }
    requires most { default ≤ most }
    ensures value { result ≡ number_option name.now default most (map string_bytes words.now) }
    ensures least { IfSome result (λ n. 1 ≤ n) }
    ensures most { IfSome result (λ n. n ≤ most) }
{
    match look_up(name, words) {
        Given::Never => Some(default),
        Given::Once(value) => number(most, value.as_bytes()),
        Given::Twice => None,
    }
}

// The name of a file that an option gives, which isn't empty; no name where it isn't given.
fn name_option<'a>(name: &str, words: &'a [String]) -> Option<Option<&'a str>>
    ensures { option_map (λ name. option_map (λ text. text.now) name) result
        ≡ name_option name.now (map string_bytes words.now) }
{
    match look_up(name, words) {
        Given::Never => Some(None),
        Given::Once(name) if !name.is_empty() => Some(Some(name)),
        _ => None,
    }
}

// The characters of the option `--order=`, none where it isn't given.
fn order_option(words: &[String]) -> Option<&[u8]>
    ensures value { option_map (λ text. map hart_of text.now) result ≡ order_option (map string_bytes words.now) }
    ensures length { IfSome result (λ text. length text.now ≤ 65536) }
    ensures names { IfSome result (λ text. All (λ character. hart_of character < 32) text.now) }
{
    match look_up("--order=", words) {
        Given::Never => Some(&[]),
        Given::Once(text) if is_order(text.as_bytes()) => Some(text.as_bytes()),
        _ => None,
    }
}

fn look_up<'a>(name: &str, words: &'a [String]) -> Given<'a>
    ensures { IsGiven (values name.now (map string_bytes words.now)) result }
{
    let mut given = Given::Never;
    for word in words {
        if let Some(value) = value_of(name, word.as_str()) {
            given = once_more(given, value);
        }
    }
    given
}

fn once_more<'a>(given: Given<'a>, value: &'a str) -> Given<'a>
    ensures { (found : List (List ℕ)) → IsGiven found given.entry → IsGiven (found ++ value.now ∷ []) result }
{
    match given {
        Given::Never => Given::Once(value),
        Given::Once(_) | Given::Twice => Given::Twice,
    }
}

fn value_of<'a>(name: &str, word: &'a str) -> Option<&'a str>
    ensures { option_map (λ value. value.now) result ≡ value_of name.now word.now }
{
    word.strip_prefix(name)
}

fn number(most: u64, word: &[u8]) -> Option<u64>
    ensures value { result ≡ number most word.now }
    ensures least { IfSome result (λ n. 1 ≤ n) }
    ensures most { IfSome result (λ n. n ≤ most) }
{
    if word.is_empty() || word.len() > 10 {
        return None;
    }
    match digits_value(word) {
        Some(n) if 1 <= n && n <= most => Some(n),
        _ => None,
    }
}

// The value of decimal digits. None where another byte stands among them.
fn digits_value(word: &[u8]) -> Option<u64>
    requires { length word.now ≤ 10 }
    ensures { result ≡ (if list_all is_digit word.now then Some (number_of word.now) else None) }
{
    let mut value = 0;
    for byte in word {
        if !byte.is_ascii_digit() {
            return None;
        }
        value = 10 * value + u64::from(*byte - b'0');
    }
    Some(value)
}

fn is_order(text: &[u8]) -> bool
    ensures value { result ≡ is_order text.now }
{
    if text.is_empty() || text.len() > 65_536 {
        return false;
    }
    for character in text {
        if hart_named(*character) >= 32 {
            return false;
        }
    }
    true
}

/// The numbers of the harts that the characters name, in order. The error is want of memory.
pub(crate) fn harts_named(alloc: Global, order: &[u8]) -> Result<Vec<u8>, AllocError>
    ensures { IfOk result (λ harts. harts.items ≡ map hart_of order.now) }
{
    order.iter().map(|name| hart_named(*name)).collect(alloc)
}

/// The hart that a character names: 0 to 9 by a digit, 10 to 31 by a letter from `a` to `v`. Another
/// character names none, which is 32.
#[tactic(auto, using(crate::proofs::WordsLemmas::harts_named))]
fn hart_named(character: u8) -> u8
    ensures { result ≡ hart_of character }
{
    match character {
        b'0'..=b'9' => character - b'0',
        b'a'..=b'v' => character - b'a' + 10,
        _ => 32,
    }
}

#[cfg(test)]
mod tests;
