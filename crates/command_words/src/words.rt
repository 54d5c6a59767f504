//! The command line's words, and the command that they say.

ghost use Rattle.std.specs.Prelude.{◌≡◌, ◌+◌, ◌^◌, ◌<◌, ◌≤◌, ◌↔◌, ◌&&◌, true, false, List, [], ◌∷◌, ◌++◌, map, Some, None, IsTrue, IfSome, MatchOption, string_bytes, codes, not, ◌==◌, if◌then◌else◌};
ghost use Rattle.std.specs.List.{list_all, position_or_len};
ghost use Rattle.std.specs.Str.Parse.{digits_value};
ghost use Rattle.res_lexer.specs.Tokens.{is_digit, same_bytes};
ghost use Rattle.command_words.specs.Words as spec;
ghost use Rattle.command_words.specs.Words.{Word, good_values};
ghost use Rattle.command_words.specs.Answer.{IsCommand};
ghost use Rattle.command_words.specs.working.Reading.{IsLimit, verb_word, option_word, options_for, has_option, AddsOption, IsPiece, IsSummary, IsState, StepsTo, Gathers, Says};

const MOST_FILES: usize = 256;

// The most instructions of a run, where the words say nothing of them.
const MOST_STEPS: u64 = 100000000;

/// What the words say: to run one file, for so many instructions at most, or something that has a written reading and is not built.
#[derive(Clone, Copy, Debug)]
pub enum Command<'a> {
    Run { file: &'a str, steps: u64 },
    Other,
}

#[derive(Clone, Copy)]
enum Verb {
    Verify,
    Prove,
    Vcs,
    Code,
    Run,
    Gen,
}

#[derive(Clone, Copy)]
enum OptionName {
    Choice,
    Certs,
    Out,
    Steps,
}

// What one word says where no option waits for its value: it is a further word, an option with its value, or an
// option whose value is the next word.
#[derive(Clone, Copy)]
enum Piece<'a> {
    Further,
    Whole(OptionName, &'a [u8]),
    Waits(OptionName),
}

// What the options so far say of the number of instructions: nothing, these digits, or something that is not built.
#[derive(Clone, Copy)]
enum Limit<'a> {
    Default,
    Steps(&'a [u8]),
    Other,
}

// Which options stand among the words so far.
#[derive(Clone, Copy)]
struct Options {
    choice: bool,
    certs: bool,
    out: bool,
    steps: bool,
}

// The words so far: their options, whether these differ and have good values, and what they say of the number of
// instructions; how many further words there are, and the first of these.
#[derive(Clone, Copy)]
struct Summary<'a> {
    options: Options,
    differ: bool,
    good: bool,
    limit: Limit<'a>,
    further: usize,
    first: Option<&'a str>,
}

// The words so far, and the option that waits for its value.
#[derive(Clone, Copy)]
struct State<'a> {
    summary: Summary<'a>,
    waiting: Option<OptionName>,
}

fn same_bytes(a: &[u8], b: &[u8]) -> bool
    ensures computed { result ≡ same_bytes a.now b.now }
    ensures equal { IsTrue result ↔ (a.now ≡ b.now) }
{
    a == b
}

fn is_value(word: &[u8]) -> bool
    ensures { result ≡ spec.is_value word.now }
{
    match word {
        [] => false,
        [first, ..] => *first != b'-',
    }
}

// The name of an option in `--name`, where the word begins with two dashes.
fn option_text(word: &[u8]) -> Option<&[u8]>
    ensures { MatchOption result (spec.option_text word.now ≡ None) (λ text. spec.option_text word.now ≡ Some text.now) }
{
    match word {
        [b'-', b'-', text @ ..] => Some(text),
        _ => None,
    }
}

fn verb_named(word: &[u8]) -> Option<Verb>
    ensures { MatchOption result (spec.options_of word.now ≡ None) (λ verb. (word.now ≡ verb_word verb) × (spec.options_of word.now ≡ Some (options_for verb))) }
{
    if same_bytes(word, b"verify") {
        Some(Verb::Verify)
    } else if same_bytes(word, b"prove") {
        Some(Verb::Prove)
    } else if same_bytes(word, b"vcs") {
        Some(Verb::Vcs)
    } else if same_bytes(word, b"code") {
        Some(Verb::Code)
    } else if same_bytes(word, b"run") {
        Some(Verb::Run)
    } else if same_bytes(word, b"gen") {
        Some(Verb::Gen)
    } else {
        None
    }
}

fn takes(verb: Verb, option: OptionName) -> bool
    ensures { result ≡ spec.is_among (option_word option) (options_for verb) }
{
    match verb {
        Verb::Verify => matches!(option, OptionName::Certs),
        Verb::Prove => matches!(option, OptionName::Out),
        Verb::Code => matches!(option, OptionName::Choice | OptionName::Certs),
        Verb::Run => matches!(
            option,
            OptionName::Choice | OptionName::Certs | OptionName::Steps
        ),
        Verb::Vcs | Verb::Gen => false,
    }
}

fn option_named(text: &[u8]) -> Option<OptionName>
    ensures { MatchOption result (spec.is_among text.now (codes "choice" ∷ codes "certs" ∷ codes "out" ∷ codes "steps" ∷ []) ≡ false) (λ option. text.now ≡ option_word option) }
{
    if same_bytes(text, b"choice") {
        Some(OptionName::Choice)
    } else if same_bytes(text, b"certs") {
        Some(OptionName::Certs)
    } else if same_bytes(text, b"out") {
        Some(OptionName::Out)
    } else if same_bytes(text, b"steps") {
        Some(OptionName::Steps)
    } else {
        None
    }
}

// The option of this name, if the verb has it.
fn option_of(verb: Verb, text: &[u8]) -> Option<OptionName>
    ensures { MatchOption result (spec.is_among text.now (options_for verb) ≡ false) (λ option. (spec.is_among text.now (options_for verb) ≡ true) × (text.now ≡ option_word option)) }
{
    match option_named(text) {
        Some(option) => if takes(verb, option) {
            Some(option)
        } else {
            None
        },
        None => None,
    }
}

fn has_equals(text: &[u8]) -> bool
    ensures { result ≡ spec.has_equals text.now }
{
    text.iter().any(|byte| *byte == b'=')
}

// The place of the first `=`, or the length where there is none.
fn equals_place(text: &[u8]) -> usize
    ensures { result ≡ position_or_len (λ b. b == 61) text.now }
{
    text.iter().take_while(|byte| **byte != b'=').count()
}

// An option with its value in one word.
fn whole<'a>(verb: Verb, name: &[u8], value: &'a [u8]) -> Option<Piece<'a>>
    ensures { IsPiece result (if spec.is_among name.now (options_for verb) && spec.is_value value.now then Some (spec.Whole name.now value.now) else None) }
{
    match option_of(verb, name) {
        Some(option) if is_value(value) => Some(Piece::Whole(option, value)),
        _ => None,
    }
}

#[tactic(auto, using(crate::proofs::Gathering::place_of_any))]
fn option_piece(verb: Verb, text: &[u8]) -> Option<Piece<'_>>
    ensures { IsPiece result (spec.option_piece (options_for verb) text.now) }
{
    if has_equals(text) {
        let at = equals_place(text);
        return whole(verb, &text[..at], &text[at + 1..]);
    }
    match option_of(verb, text) {
        Some(option) => Some(Piece::Waits(option)),
        None => None,
    }
}

// What a word says where no option waits for its value.
fn piece_of(verb: Verb, word: &[u8]) -> Option<Piece<'_>>
    ensures { IsPiece result (spec.piece_of (options_for verb) word.now) }
{
    match option_text(word) {
        Some(text) => option_piece(verb, text),
        None => if is_value(word) {
            Some(Piece::Further)
        } else {
            None
        },
    }
}

fn is_digit(byte: u8) -> bool
    ensures { result ≡ is_digit byte }
{
    byte.is_ascii_digit()
}

fn is_first_digit(byte: u8) -> bool
    ensures { result ≡ (is_digit byte && not (byte == 48)) }
{
    is_digit(byte) && byte != b'0'
}

fn all_digits(word: &[u8]) -> bool
    ensures { result ≡ list_all is_digit word.now }
{
    word.iter().all(|byte| is_digit(*byte))
}

// Digits without a leading zero.
fn is_number(word: &[u8]) -> bool
    ensures { result ≡ spec.is_number word.now }
{
    match word {
        [] => false,
        [first, rest @ ..] => is_digit(*first) && *first != b'0' && all_digits(rest),
    }
}

fn is_good_value(option: OptionName, value: &[u8]) -> bool
    ensures { result ≡ spec.is_good_value (option_word option) value.now }
{
    match option {
        OptionName::Steps => is_number(value) && value.len() <= 12,
        OptionName::Choice | OptionName::Certs | OptionName::Out => true,
    }
}

// A number from 1 to 64.
fn is_gen_number(word: &[u8]) -> bool
    ensures { result ≡ spec.is_gen_number word.now }
{
    match word {
        [ones] => is_first_digit(*ones),
        [tens, ones] => {
            is_first_digit(*tens) && is_digit(*ones) && 10 * (*tens - b'0') + (*ones - b'0') <= 64
        }
        _ => false,
    }
}

impl Options {
    fn has(self, option: OptionName) -> bool
        ensures { result ≡ has_option self option }
    {
        match option {
            OptionName::Choice => self.choice,
            OptionName::Certs => self.certs,
            OptionName::Out => self.out,
            OptionName::Steps => self.steps,
        }
    }

    fn with(self, option: OptionName) -> Options
        ensures { AddsOption self option result }
    {
        match option {
            OptionName::Choice => Options {
                choice: true,
                ..self
            },
            OptionName::Certs => Options {
                certs: true,
                ..self
            },
            OptionName::Out => Options { out: true, ..self },
            OptionName::Steps => Options {
                steps: true,
                ..self
            },
        }
    }
}

impl<'a> Limit<'a> {
    // With one more option.
    fn with(self, option: OptionName, value: &'a [u8]) -> Limit<'a>
        ensures { (os : List (Word × Word)) → IsLimit self.entry os → IsLimit result (os ++ (option_word option, value.now) ∷ []) }
    {
        match self {
            Limit::Default => match option {
                OptionName::Steps => Limit::Steps(value),
                OptionName::Choice | OptionName::Certs | OptionName::Out => Limit::Other,
            },
            Limit::Steps(_) | Limit::Other => Limit::Other,
        }
    }
}

impl<'a> Summary<'a> {
    // No words.
    fn new() -> Summary<'a>
        ensures none { IsSummary [] [] result }
        ensures counted { result.further ≡ 0 }
    {
        Summary {
            options: Options {
                choice: false,
                certs: false,
                out: false,
                steps: false,
            },
            differ: true,
            good: true,
            limit: Limit::Default,
            further: 0,
            first: None,
        }
    }

    // One more option.
    fn with_option(self, option: OptionName, value: &'a [u8]) -> Summary<'a>
        ensures more { (os : List (Word × Word)) (fs : List Word) → IsSummary os fs self.entry → IsSummary (os ++ (option_word option, value.now) ∷ []) fs result }
        ensures counted { result.further ≡ self.entry.further }
    {
        let again = self.options.has(option);
        let good = is_good_value(option, value);
        Summary {
            options: self.options.with(option),
            differ: self.differ && !again,
            good: self.good && good,
            limit: self.limit.with(option, value),
            ..self
        }
    }

    // One more further word.
    fn with_further(self, word: &'a str) -> Summary<'a>
        requires { self.further + 1 < 2 ^ 64 }
        ensures more { (os : List (Word × Word)) (fs : List Word) → IsSummary os fs self.entry → IsSummary os (fs ++ word.now ∷ []) result }
        ensures counted { result.further ≡ self.entry.further + 1 }
    {
        Summary {
            further: self.further + 1,
            first: self.first.or(Some(word)),
            ..self
        }
    }
}

impl<'a> State<'a> {
    // The word after an option that waits for its value.
    fn value(self, verb: Verb, option: OptionName, word: &'a str) -> Option<State<'a>>
        requires { self.waiting ≡ Some option }
        ensures state { (words rest : List Word) → IsState (options_for verb) words (word.now ∷ rest) self.entry → StepsTo (options_for verb) words rest result }
        ensures counted { IfSome result (λ s. s.summary.further ≡ self.entry.summary.further) }
    {
        let value = word.as_bytes();
        if is_value(value) {
            Some(State {
                summary: self.summary.with_option(option, value),
                waiting: None,
            })
        } else {
            None
        }
    }

    // A word where no option waits.
    fn piece(self, verb: Verb, word: &'a str) -> Option<State<'a>>
        requires idle { self.waiting ≡ None }
        requires fits { self.summary.further + 1 < 2 ^ 64 }
        ensures state { (words rest : List Word) → IsState (options_for verb) words (word.now ∷ rest) self.entry → StepsTo (options_for verb) words rest result }
        ensures counted { IfSome result (λ s. s.summary.further ≤ self.entry.summary.further + 1) }
    {
        match piece_of(verb, word.as_bytes()) {
            None => None,
            Some(Piece::Further) => Some(State {
                summary: self.summary.with_further(word),
                waiting: None,
            }),
            Some(Piece::Whole(option, value)) => Some(State {
                summary: self.summary.with_option(option, value),
                waiting: None,
            }),
            Some(Piece::Waits(option)) => Some(State {
                summary: self.summary,
                waiting: Some(option),
            }),
        }
    }

    // One more word.
    fn step(self, verb: Verb, word: &'a str) -> Option<State<'a>>
        requires { self.summary.further + 1 < 2 ^ 64 }
        ensures state { (words rest : List Word) → IsState (options_for verb) words (word.now ∷ rest) self.entry → StepsTo (options_for verb) words rest result }
        ensures counted { IfSome result (λ s. s.summary.further ≤ self.entry.summary.further + 1) }
    {
        match self.waiting {
            Some(option) => self.value(verb, option, word),
            None => self.piece(verb, word),
        }
    }
}

// The options and further words of what follows the verb.
fn gather(verb: Verb, words: &[String]) -> Option<Summary<'_>>
    ensures { Gathers (options_for verb) (map string_bytes words.now) result }
{
    let mut state = State {
        summary: Summary::new(),
        waiting: None,
    };
    for word in words {
        state = match state.step(verb, word) {
            Some(next) => next,
            None => return None,
        };
    }
    match state.waiting {
        Some(_) => None,
        None => Some(state.summary),
    }
}

// Whether there are 1 to 256 files, or for `gen` one number from 1 to 64.
fn has_good_further(verb: Verb, summary: Summary<'_>) -> bool
    ensures { (os : List (Word × Word)) (fs : List Word) → IsSummary os fs summary.entry → result ≡ spec.good_further (verb_word verb) fs }
{
    match summary.first {
        None => false,
        Some(first) => match verb {
            Verb::Gen => summary.further == 1 && is_gen_number(first.as_bytes()),
            _ => summary.further <= MOST_FILES,
        },
    }
}

// The number that digits write.
fn number_of(digits: &[u8]) -> u64
    requires { spec.is_steps digits.now ≡ true }
    ensures { result ≡ digits_value 10 digits.now }
{
    let mut number = 0;
    for digit in digits {
        number = 10 * number + (*digit - b'0') as u64;
    }
    number
}

fn most_steps() -> u64
    ensures { result ≡ spec.most_steps }
{
    MOST_STEPS
}

// How many instructions a run may take, where the options say that alone.
fn steps_of(limit: Limit<'_>) -> Option<u64>
    ensures { (os : List (Word × Word)) → IsLimit limit.entry os → good_values os ≡ true → MatchOption result (spec.steps_of os ≡ None) (λ n. spec.steps_of os ≡ Some n) }
{
    match limit {
        Limit::Default => Some(most_steps()),
        Limit::Steps(digits) => if is_number(digits) && digits.len() <= 12 {
            Some(number_of(digits))
        } else {
            None
        },
        Limit::Other => None,
    }
}

// To run one file.
fn run_of<'a>(file: &'a str, limit: Limit<'a>) -> Command<'a>
    ensures { (os : List (Word × Word)) → IsLimit limit.entry os → good_values os ≡ true → Says result (spec.run_file file.now (spec.steps_of os)) }
{
    match steps_of(limit) {
        Some(steps) => Command::Run { file, steps },
        None => Command::Other,
    }
}

// The command of a verb with good options and further words.
fn command_of<'a>(verb: Verb, summary: Summary<'a>) -> Command<'a>
    ensures { (os : List (Word × Word)) (fs : List Word) → IsSummary os fs summary.entry → good_values os ≡ true → Says result (spec.command_of (record { verb = verb_word verb; options = os; further = fs })) }
{
    match (verb, summary.first) {
        (Verb::Run, Some(file)) => if summary.further == 1 {
            run_of(file, summary.limit)
        } else {
            Command::Other
        },
        _ => Command::Other,
    }
}

/// The command that the words after the program's name say, or `None` where they have no written reading.
pub fn read_command(words: &[String]) -> Option<Command<'_>>
    ensures { IsCommand result (map string_bytes words.now) }
{
    let (first, rest) = words.split_first()?;
    let verb = verb_named(first.as_bytes())?;
    let summary = gather(verb, rest)?;
    if summary.differ && summary.good && has_good_further(verb, summary) {
        Some(command_of(verb, summary))
    } else {
        None
    }
}
