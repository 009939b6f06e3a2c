// What a job script and a parts list are made of: numbers, lines, and the level that a line of a parts list begins with.
#![tactic(auto)]

ghost use Rattle.std.specs.Prelude.{◌≡◌, ◌==◌, position};
ghost use Rattle.std.specs.List.{prefix_len};
ghost use Rattle.texts.specs.Numbers.{is_digit, one_more, number_of};
ghost use Rattle.texts.specs.Lines.{feed, line_of, after_line, without_return};
ghost use Rattle.texts.specs.PartsList.{level_of};

// The greatest level that a line may have.
pub const MOST_LEVEL: u32 = u16::MAX as u32;

// The number that a digit makes of the one before it, where it is a digit and the number is not above `most`.
fn with_digit(value: u32, b: u8, most: u32) -> Option<u32>
    ensures { result ≡ one_more most value b }
{
    if !b.is_ascii_digit() {
        return None;
    }
    let next = value.checked_mul(10)?.checked_add(u32::from(b - b'0'))?;
    (next <= most).then_some(next)
}

// A number: one decimal digit or more and nothing else, at most `most`.
pub fn number(word: &[u8], most: u32) -> Option<u32>
    ensures { result ≡ number_of most word.now }
{
    if word.is_empty() {
        return None;
    }
    word.iter()
        .try_fold(0, |value, b| with_digit(value, *b, most))
}

// How many digits a line begins with.
fn digit_count(line: &[u8]) -> usize
    ensures { result ≡ prefix_len is_digit line.now }
{
    line.iter().take_while(|b| b.is_ascii_digit()).count()
}

// Where the first line feed stands.
fn line_end(text: &[u8]) -> Option<usize>
    ensures { result ≡ position (λ b. b == feed) text.now }
{
    text.iter().position(|b| *b == b'\n')
}

// The first line of a text, and what follows its line feed.
pub fn split_line(text: &[u8]) -> (&[u8], &[u8])
    ensures line { result.0.now ≡ line_of text.now }
    ensures rest { result.1.now ≡ after_line text.now }
{
    // Two ranges: bytes have no `split_once`, and after `split_at` the feed would still have to go.
    match line_end(text) {
        Some(n) => (&text[..n], &text[n + 1..]),
        None => (text, &[]),
    }
}

// A line without the carriage return that it may end with.
pub fn trim_return(line: &[u8]) -> &[u8]
    ensures { result.now ≡ without_return line.now }
{
    match line {
        [body @ .., b'\r'] => body,
        _ => line,
    }
}

// The level that a line of a parts list begins with: a number, then a space, a tab or the line's end.
pub fn level(line: &[u8]) -> Option<u16>
    ensures { result ≡ level_of line.now }
{
    let (digits, rest) = line.split_at(digit_count(line));
    if rest.first().is_some_and(|b| *b != b' ' && *b != b'\t') {
        return None;
    }
    u16::try_from(number(digits, MOST_LEVEL)?).ok()
}
