//! The words of the command line.

ghost use Rattle.std.specs.Prelude.{◌≡◌, option_map};
ghost use Rattle.std.specs.Str.{all_ascii_digits};
ghost use Rattle.frame_tool.specs.Words.{command_of, form_of, single, same_form, copy_form, splice_form, apart};
ghost use Rattle.frame_tool.specs.Words.{make_form};
ghost use Rattle.frame_tool.specs.Words.{frames_told, has_leading_zero, texts};

use sample_file::FRAMES_AT_MOST;

/// A command, read from the words of the command line.
#[derive(Clone, Copy)]
pub enum Command<'a> {
    /// `walk FILE`: judges the header and the structures' lengths.
    Walk { file: &'a str },
    /// `check FILE`: judges the whole file.
    Check { file: &'a str },
    /// `list FILE`: prints the channels.
    List { file: &'a str },
    /// `same A B`: compares what two files hold.
    Same { first: &'a str, second: &'a str },
    /// `splice OUT FILES`: writes the frames of all files; `copy FILE OUT` is that of one file.
    Splice { to: &'a str, from: &'a [String] },
    /// `dump FILE`: prints every structure.
    Dump { file: &'a str },
    /// `make N OUT`: writes a sample file of so many frames, 100,000 at most, and checks it.
    Make { frames: u32, to: &'a str },
}

/// The command that the words are; `None` exactly where they are none.
pub fn read_words(words: &[String]) -> Option<Command<'_>>
    ensures { option_map form_of result ≡ command_of (texts words.now) }
{
    let [command, words @ ..] = words else {
        return None;
    };
    match command.as_str() {
        "walk" => Some(Command::Walk {
            file: single(words)?,
        }),
        "check" => Some(Command::Check {
            file: single(words)?,
        }),
        "list" => Some(Command::List {
            file: single(words)?,
        }),
        "same" => same_form(words),
        "copy" => copy_form(words),
        "splice" => splice_form(words),
        "dump" => Some(Command::Dump {
            file: single(words)?,
        }),
        "make" => make_form(words),
        _ => None,
    }
}

/// The one word.
fn single(words: &[String]) -> Option<&str>
    ensures { option_map (λ word. word.now) result ≡ single (texts words.now) }
{
    match words {
        [word] => Some(word.as_str()),
        _ => None,
    }
}

/// `A B`.
fn same_form(words: &[String]) -> Option<Command<'_>>
    ensures { option_map form_of result ≡ same_form (texts words.now) }
{
    match words {
        [first, second] => Some(Command::Same {
            first: first.as_str(),
            second: second.as_str(),
        }),
        _ => None,
    }
}

/// `FILE OUT`.
fn copy_form(words: &[String]) -> Option<Command<'_>>
    ensures { option_map form_of result ≡ copy_form (texts words.now) }
{
    match words {
        [_, to] => apart(to.as_str(), &words[..1]),
        _ => None,
    }
}

/// `OUT FILES`.
fn splice_form(words: &[String]) -> Option<Command<'_>>
    ensures { option_map form_of result ≡ splice_form (texts words.now) }
{
    match words {
        [to, from @ ..] if !from.is_empty() && u32::try_from(from.len()).is_ok() => {
            apart(to.as_str(), from)
        }
        _ => None,
    }
}

/// The splice of files to one that is none of them.
fn apart<'a>(to: &'a str, from: &'a [String]) -> Option<Command<'a>>
    ensures { option_map form_of result ≡ apart to.now (texts from.now) }
{
    if from.iter().any(|file| file.as_str() == to) {
        None
    } else {
        Some(Command::Splice { to, from })
    }
}

/// `N OUT`.
fn make_form(words: &[String]) -> Option<Command<'_>>
    ensures { option_map form_of result ≡ make_form (texts words.now) }
{
    match words {
        [frames, to] => Some(Command::Make {
            frames: frames_told(frames.as_str())?,
            to: to.as_str(),
        }),
        _ => None,
    }
}

/// The number of frames that a word tells: in decimal digits without a leading zero, at most 100,000.
fn frames_told(word: &str) -> Option<u32>
    ensures { result ≡ frames_told word.now }
{
    if word.is_empty() || has_leading_zero(word.as_bytes()) || !are_digits(word.as_bytes()) {
        return None;
    }
    let frames = word.parse::<u32>().ok()?;
    if frames > FRAMES_AT_MOST {
        return None;
    }
    Some(frames)
}

/// Whether it has more than one byte and begins with a zero.
fn has_leading_zero(word: &[u8]) -> bool
    ensures { result ≡ has_leading_zero word.now }
{
    matches!(word, [b'0', _, ..])
}

/// Whether all of it are decimal digits.
fn are_digits(word: &[u8]) -> bool
    ensures { result ≡ all_ascii_digits word.now }
{
    word.iter().all(|byte| byte.is_ascii_digit())
}
