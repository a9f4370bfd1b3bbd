// Cutting a text into lines, and a line into words.
ghost use Rattle.std.specs.Prelude.{◌≡◌, ◌≢◌, ◌<◌, ◌≤◌, ◌∷◌, [], length, take, drop, IfSome, IfNone, false, true};
ghost use Rattle.noise_script.specs.Lines.{lines_of, words_of, is_blank, is_in_word, without_return};

fn is_blank(octet: u8) -> bool
    ensures { result ≡ is_blank octet }
{
    octet == b' ' || octet == b'\t'
}

/// A line without the carriage return at its end, where it has one.
fn without_return(line: &[u8]) -> &[u8]
    ensures { result.now ≡ without_return line.now }
{
    let Some((last, front)) = line.split_last() else {
        return line;
    };
    if *last == b'\r' { front } else { line }
}

/// The first line of a text, and the text behind it.
pub(crate) fn next_line(text: &[u8]) -> (&[u8], &[u8])
    requires { text.now ≢ [] }
    ensures lines { lines_of text.now ≡ result.0.now ∷ lines_of result.1.now }
    ensures shorter { length result.1.now < length text.now }
{
    for (at, octet) in text.iter().enumerate() {
        if *octet == b'\n' {
            return (without_return(&text[..at]), &text[at + 1..]);
        }
    }
    (text, &[])
}

/// A line without the blanks that it begins with.
fn without_blanks(line: &[u8]) -> &[u8]
    ensures words { words_of result.now ≡ words_of line.now }
    ensures word { result.now ≢ [] → is_in_word result.now ≡ true }
    ensures shorter { length result.now ≤ length line.now }
{
    for (at, octet) in line.iter().enumerate() {
        if !is_blank(*octet) {
            return &line[at..];
        }
    }
    &[]
}

/// The word that a line begins with, and the line behind it.
fn cut_word(line: &[u8]) -> (&[u8], &[u8])
    requires { is_in_word line.now ≡ true }
    ensures words { words_of line.now ≡ result.0.now ∷ words_of result.1.now }
    ensures shorter { length result.1.now < length line.now }
{
    for (at, octet) in line.iter().enumerate() {
        if is_blank(*octet) {
            return line.split_at(at);
        }
    }
    (line, &[])
}

/// The first word of a line that has one, and the line behind it.
pub(crate) fn first_word(line: &[u8]) -> (&[u8], &[u8])
    requires { words_of line.now ≢ [] }
    ensures { words_of line.now ≡ result.0.now ∷ words_of result.1.now }
{
    cut_word(without_blanks(line))
}

/// The first word of a line, and the line behind it, where it has a word.
pub(crate) fn next_word(line: &[u8]) -> Option<(&[u8], &[u8])>
    ensures some { IfSome result (λ cut. words_of line.now ≡ cut.0.now ∷ words_of cut.1.now) }
    ensures shorter { IfSome result (λ cut. length cut.1.now < length line.now) }
    ensures none { IfNone result (words_of line.now ≡ []) }
{
    let line = without_blanks(line);
    if line.is_empty() {
        return None;
    }
    Some(cut_word(line))
}

pub(crate) fn count_words(line: &[u8]) -> usize
    ensures { result ≡ length (words_of line.now) }
{
    let mut count = 0;
    let mut rest = line;
    while let Some((_, behind)) = next_word(rest) {
        count += 1;
        rest = behind;
    }
    count
}
