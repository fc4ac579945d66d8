// What the words after the program's name ask for.
ghost use Rattle.std.specs.Char.{is_ascii_digit};
ghost use Rattle.std.specs.List.{list_all};
ghost use Rattle.std.specs.Prelude.{ℕ, ◌≡◌, MatchOption};
ghost use Rattle.std.specs.Prelude.{codes};
ghost use Rattle.sg_top.specs.declared.command.Command.{Command as Asked};
ghost use Rattle.sg_top.specs.Inside.Words.{AreDigitsOf, IsPairOf};

use sg_explore::MOST_PAIRED;
use sg_judge::{
    MOST_INPUT, MOST_INTERFACE, MOST_MULTI_INPUT, MOST_RUN_INPUT, TOO_LONG, TOO_LONG_EXPLAINED,
};
use sg_load::ServiceKind;

/// What is printed of a run.
#[derive(Clone, Copy, Debug, PartialEq, Eq)]
pub enum Shows {
    /// Its report.
    Report,
    /// Its report, and what was done to the service.
    Trace,
    /// What its calls could cost after one more stop, in replayed calls, and what those of each boot cost.
    Costs,
    /// A picture of what was done to the service, as a document of scalable graphics.
    Picture,
    /// The same picture in the columns of a terminal.
    Columns,
}

impl Shows {
    ghost use Rattle.std.specs.Prelude.{◌≡◌};
    ghost use Rattle.sg_top.specs.Answer.{report_shown};

    /// The report of a run, with what was done to the service or without.
    pub fn of_report(trace: bool) -> Shows
        ensures { result ≡ report_shown trace }
    {
        if trace { Shows::Trace } else { Shows::Report }
    }
}

/// A command of the program.
#[derive(Clone, Copy, Debug, PartialEq, Eq)]
pub enum Command {
    /// `sim`: plays an input in one thread, and prints the report of its run; with `trace` after it too what was done to the service.
    /// `cost`: plays it so, and prints what its calls could cost after one more stop. `draw`: plays it so, and draws what was done to the
    /// service; with `text` after it in the columns of a terminal.
    Play { shows: Shows },
    /// `run`: plays an input with a thread for each client, and prints the report of its run; with `trace` after it too what was done to
    /// the service.
    Run { trace: bool },
    /// `check`: says whether an input is the text of an interface that is accepted.
    Check,
    /// `compile`: prints the tables of the text of an interface that is accepted.
    Compile,
    /// `upgrade`: prints the text of an interface that is accepted as one of version 2.
    Upgrade,
    /// `explain`: says of an input of `check` or of `sim` what these would say of it, and why, in words.
    Explain,
    /// `explore`: plays an input's script with other stops, with a stop at each point by itself, and prints what differs; with a number
    /// after it too with each two stops up to that point. All processors are used.
    Explore { most: u64 },
    /// `verify`: says whether the entries of a printed run are a history that a service which never failed could have given.
    Verify,
    /// `multi`: plays one script over several services, each with stops of its own, and prints the report; with `trace` after it too what
    /// was done to each service.
    Multi { trace: bool },
    /// `load SERVICE NUMBER`: plays the script that is generated for a service from a number, and prints one line. It has no input.
    Load { service: ServiceKind, number: u64 },
}

impl Command {
    ghost use Rattle.std.specs.Prelude.{◌≡◌, MatchOption};
    ghost use Rattle.sg_top.specs.declared.command.Command.{Command as Asked};
    ghost use Rattle.sg_top.specs.Answer.{IsCommand, is_in_threads, most_bytes, too_long_output};
    ghost use Rattle.sg_top.specs.Inside.Words.{IsLoadOf, IsPairOf, IsWordOf};

    /// The command of these words; None where they are no command's.
    pub fn of_words(words: &[String]) -> Option<Command>
        ensures { MatchOption result ((command : Asked) → IsCommand words.now command → ⊥) (IsCommand words.now) }
    {
        match words {
            [word] => Command::of_word(word.as_str()),
            [word, more] => Command::of_two_words(word.as_str(), more.as_str()),
            [word, name, digits] => {
                Command::of_three_words(word.as_str(), name.as_str(), digits.as_str())
            }
            _ => None,
        }
    }

    // The command of one word; None where it is no command's.
    fn of_word(word: &str) -> Option<Command>
        ensures { MatchOption result ((command : Asked) → IsWordOf word.now command → ⊥) (IsWordOf word.now) }
    {
        match word {
            "sim" => Some(Command::Play {
                shows: Shows::Report,
            }),
            "run" => Some(Command::Run { trace: false }),
            "cost" => Some(Command::Play {
                shows: Shows::Costs,
            }),
            "check" => Some(Command::Check),
            "compile" => Some(Command::Compile),
            "upgrade" => Some(Command::Upgrade),
            "draw" => Some(Command::Play {
                shows: Shows::Picture,
            }),
            "explain" => Some(Command::Explain),
            "explore" => Some(Command::Explore { most: 0 }),
            "verify" => Some(Command::Verify),
            "multi" => Some(Command::Multi { trace: false }),
            _ => None,
        }
    }

    // The command of two words; None where they are no command's.
    fn of_two_words(word: &str, more: &str) -> Option<Command>
        ensures { MatchOption result ((command : Asked) → IsPairOf word.now more.now command → ⊥) (IsPairOf word.now more.now) }
    {
        match word {
            "explore" => exploration_up_to(more),
            "draw" => drawing_as(more),
            _ => Command::of_traced(word, more),
        }
    }

    // The command of a word and another, of which the first is none that takes a number or a form of picture; None where they are no
    // command's.
    fn of_traced(word: &str, more: &str) -> Option<Command>
        requires explores { word.now ≡ codes "explore" → ⊥ }
        requires draws { word.now ≡ codes "draw" → ⊥ }
        ensures { MatchOption result ((command : Asked) → IsPairOf word.now more.now command → ⊥) (IsPairOf word.now more.now) }
    {
        if more != "trace" {
            return None;
        }
        match word {
            "sim" => Some(Command::Play {
                shows: Shows::Trace,
            }),
            "run" => Some(Command::Run { trace: true }),
            "multi" => Some(Command::Multi { trace: true }),
            _ => None,
        }
    }

    // The command of three words; None where they are no command's.
    fn of_three_words(word: &str, name: &str, digits: &str) -> Option<Command>
        ensures { MatchOption result ((command : Asked) → IsLoadOf word.now name.now digits.now command → ⊥) (IsLoadOf word.now name.now digits.now) }
    {
        if word != "load" {
            return None;
        }
        let service = ServiceKind::named(name.as_bytes())?;
        let number = number_of(digits)?;
        Some(Command::Load { service, number })
    }

    /// Whether the command takes threads: a play with a thread for each client, or runs that are made on all processors.
    pub fn is_in_threads(self) -> bool
        ensures { result ≡ is_in_threads self }
    {
        matches!(self, Command::Run { .. } | Command::Explore { .. })
    }

    /// The greatest number of bytes of the command's input.
    pub fn most_bytes(self) -> usize
        ensures { result ≡ most_bytes self }
    {
        match self {
            Command::Play { .. }
            | Command::Run { .. }
            | Command::Explain
            | Command::Explore { .. } => MOST_INPUT,
            Command::Check | Command::Compile | Command::Upgrade => MOST_INTERFACE,
            Command::Verify => MOST_RUN_INPUT,
            Command::Multi { .. } => MOST_MULTI_INPUT,
            Command::Load { .. } => 0,
        }
    }

    /// What is written of an input of the command that has more bytes than that: the line that refuses it, and for `explain` how many
    /// there may be.
    pub fn too_long_output(self) -> &'static [u8]
        ensures { result.now ≡ too_long_output self }
    {
        match self {
            Command::Explain => TOO_LONG_EXPLAINED,
            Command::Play { .. }
            | Command::Run { .. }
            | Command::Check
            | Command::Compile
            | Command::Upgrade
            | Command::Explore { .. }
            | Command::Verify
            | Command::Multi { .. }
            | Command::Load { .. } => TOO_LONG,
        }
    }
}

// The exploration that tries each two stops up to the number that digits stand for; None where a word is no digits, or its number is
// too great.
fn exploration_up_to(digits: &str) -> Option<Command>
    ensures { MatchOption result ((command : Asked) → IsPairOf (codes "explore") digits.now command → ⊥) (IsPairOf (codes "explore") digits.now) }
{
    let most = number_of(digits)?;
    if most > MOST_PAIRED {
        return None;
    }
    Some(Command::Explore { most })
}

// The drawing in the form that a word asks for; None where it is no form's.
fn drawing_as(form: &str) -> Option<Command>
    ensures { MatchOption result ((command : Asked) → IsPairOf (codes "draw") form.now command → ⊥) (IsPairOf (codes "draw") form.now) }
{
    if form != "text" {
        return None;
    }
    Some(Command::Play {
        shows: Shows::Columns,
    })
}

// The number of 64 bits that digits stand for; None where a word is no digits, or its number is greater.
fn number_of(word: &str) -> Option<u64>
    ensures { MatchOption result ((number : ℕ) → AreDigitsOf number word.now → ⊥) (λ number. AreDigitsOf number word.now) }
{
    if !are_digits(word.as_bytes()) {
        return None;
    }
    word.parse::<u64>().ok()
}

// Whether all bytes are digits.
fn are_digits(bytes: &[u8]) -> bool
    ensures { result ≡ list_all is_ascii_digit bytes.now }
{
    bytes.iter().all(|byte| byte.is_ascii_digit())
}
