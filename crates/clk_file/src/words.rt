//! The words of scripts.
ghost use Rattle.std.specs.Prelude.{◌≡◌};
ghost use Rattle.clk_file.specs.Words.{is_number, number_of, number_after, word_of, word_in};

use clk_machine::Word;

/// Whose script it is: a CPU's, or that of a reader, which makes readings and pauses alone.
#[derive(Clone, Copy)]
pub(crate) enum Thread {
    Cpu,
    Reader,
}

/// The word that a text is in such a script.
pub(crate) fn word_in(thread: Thread, text: &str) -> Option<Word>
    ensures { result ≡ word_in thread text.now }
{
    let word = word_of(text)?;
    match (thread, word) {
        (Thread::Reader, Word::Tick | Word::Idle | Word::Update) => None,
        _ => Some(word),
    }
}

/// The word that a text is.
#[tactic(auto, unfolding(crate::specs::Words::word_of))]
fn word_of(text: &str) -> Option<Word>
    ensures { result ≡ word_of text.now }
{
    if text == "local" {
        Some(Word::Local)
    } else if text == "tick" {
        Some(Word::Tick)
    } else if text == "idle" {
        Some(Word::Idle)
    } else if text == "update" {
        Some(Word::Update)
    } else if let Some(cpu) = number_after(b"remote ", text.as_bytes()) {
        Some(Word::Remote(i64::from(cpu)))
    } else if let Some(tickets) = number_after(b"pause ", text.as_bytes()) {
        Some(Word::Pause(i64::from(tickets)))
    } else {
        None
    }
}

/// The number behind a name and a space.
#[tactic(auto, unfolding(crate::specs::Words::number_after))]
fn number_after(name: &[u8], text: &[u8]) -> Option<u32>
    ensures { result ≡ number_after name.now text.now }
{
    number_of(text.strip_prefix(name)?)
}

/// The number that a text is: 1 to 9 digits, of which the first is 0 only where it is alone.
#[tactic(auto, unfolding(crate::specs::Words::number_of))]
fn number_of(text: &[u8]) -> Option<u32>
    ensures { result ≡ number_of text.now }
{
    if !is_number(text) {
        return None;
    }
    let mut number = 0;
    for digit in text {
        number = number * 10 + u32::from(*digit - b'0');
    }
    Some(number)
}

/// Whether a text is such a number.
#[tactic(auto, unfolding(crate::specs::Words::is_number))]
fn is_number(text: &[u8]) -> bool
    ensures { result ≡ is_number text.now }
{
    (1 <= text.len() && text.len() <= 9)
        && (text.iter().all(|c| c.is_ascii_digit()) && (text.len() == 1 || text[0] != b'0'))
}
