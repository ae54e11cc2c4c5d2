//! What the words of a command line ask for.
ghost use Rattle.std.specs.Prelude.{◌≡◌, IfSome};
ghost use Rattle.clk_tool.specs.Commands.{command_asked, IsCommandInRange, rate_from, make_from, number_of, is_plain};

/// What the words of a command line ask for.
#[derive(Clone, Copy, PartialEq, Eq, Debug)]
pub enum Command {
    /// Run the machine that the source describes.
    Run,
    /// Write the scheduler clock's rate for a counter of `hz` Hz, at least 1, and `bits` bits, 1 to 64.
    Rate { hz: u32, bits: u32 },
    /// Run the machine that is made from the number `n`, below 65,536, and write how large it and its run are.
    Make { n: u32 },
}

/// The command of the words, the program's name left out. It is `None` where they are none of the forms.
pub(crate) fn command_in(words: &[String]) -> Option<Command>
    ensures command { result ≡ command_asked words.now }
    ensures range { IfSome result IsCommandInRange }
{
    match words {
        [word] if word.as_str() == "run" => Some(Command::Run),
        [word, n] if word.as_str() == "make" => make_from(n.as_str()),
        [word, hz, bits] if word.as_str() == "rate" => rate_from(hz.as_str(), bits.as_str()),
        _ => None,
    }
}

/// The command `rate` of these two words.
fn rate_from(hz: &str, bits: &str) -> Option<Command>
    ensures command { result ≡ rate_from (number_of hz.now) (number_of bits.now) }
    ensures range { IfSome result IsCommandInRange }
{
    let hz = number_of(hz)?;
    let bits = number_of(bits)?;
    if 1 <= hz && 1 <= bits && bits <= 64 {
        Some(Command::Rate { hz, bits })
    } else {
        None
    }
}

/// The command `make` of this word.
fn make_from(n: &str) -> Option<Command>
    ensures command { result ≡ make_from (number_of n.now) }
    ensures range { IfSome result IsCommandInRange }
{
    let n = number_of(n)?;
    if n < 65_536 {
        Some(Command::Make { n })
    } else {
        None
    }
}

/// The number that a word is: in decimal, with no sign and no leading zero.
fn number_of(word: &str) -> Option<u32>
    ensures { result ≡ number_of word.now }
{
    if is_plain(word.as_bytes()) {
        word.parse().ok()
    } else {
        None
    }
}

/// Whether a word begins as a number does that has no sign and no leading zero.
fn is_plain(word: &[u8]) -> bool
    ensures { result ≡ is_plain word.now }
{
    matches!(word, [b'1'..=b'9', ..] | [b'0'])
}
