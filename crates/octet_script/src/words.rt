//! The words of a line.
ghost use Rattle.std.specs.Prelude.{◌≡◌, ◌<◌, ◌∷◌, ◌==◌, [], length, not, MatchOption, IfSome, OnOk};
ghost use Rattle.std.specs.List.{position};
ghost use Rattle.octet_script.specs.Words.{is_blank, lines, uncommented, words, words_of_line, texts};

use octet_model::OutOfMemory;

fn is_blank(byte: u8) -> bool
    ensures { result ≡ is_blank byte }
{
    byte == b' ' || byte == b'\t' || byte == b'\r'
}

// The place of the first byte of this kind.
fn find_byte(text: &[u8], byte: u8) -> Option<usize>
    ensures { result ≡ position (λ b. b == byte) text.now }
{
    text.iter().position(|b| *b == byte)
}

fn find_blank(text: &[u8]) -> Option<usize>
    ensures { result ≡ position is_blank text.now }
{
    text.iter().position(|byte| is_blank(*byte))
}

fn find_filled(text: &[u8]) -> Option<usize>
    ensures { result ≡ position (λ b. not (is_blank b)) text.now }
{
    text.iter().position(|byte| !is_blank(*byte))
}

/// The first line, and what stands after its end; none where no line ends.
pub(crate) fn cut_line(text: &[u8]) -> Option<(&[u8], &[u8])>
    ensures line { MatchOption result (lines text.now ≡ text.now ∷ []) (λ r. lines text.now ≡ r.0.now ∷ lines r.1.now) }
    ensures shorter { IfSome result (λ r. length r.1.now < length text.now) }
{
    match find_byte(text, b'\n') {
        Some(end) => {
            let (line, after) = text.split_at(end);
            let (_, after) = after.split_at(1);
            Some((line, after))
        }
        None => None,
    }
}

// What is read of a line: all that stands before its first `#`.
fn uncommented(line: &[u8]) -> &[u8]
    ensures { result.now ≡ uncommented line.now }
{
    match find_byte(line, b'#') {
        Some(at) => &line[..at],
        None => line,
    }
}

// The first word, and what stands after it.
fn first_word(text: &[u8]) -> Option<(&[u8], &[u8])>
    ensures word { MatchOption result (words text.now ≡ []) (λ r. words text.now ≡ r.0.now ∷ words r.1.now) }
    ensures shorter { IfSome result (λ r. length r.1.now < length text.now) }
{
    let Some(start) = find_filled(text) else {
        return None;
    };
    let (_, rest) = text.split_at(start);
    match find_blank(rest) {
        Some(end) => Some(rest.split_at(end)),
        None => Some((rest, b"")),
    }
}

/// Puts the words of a line into `words`, in place of what was there.
pub(crate) fn split_words<'a>(line: &'a [u8], words: &mut Vec<&'a [u8]>) -> Result<(), OutOfMemory>
    ensures { OnOk result (texts words.new.items ≡ words_of_line line.now) }
{
    words.clear();
    let mut rest = uncommented(line);
    while let Some((word, after)) = first_word(rest) {
        words.push(word)?;
        rest = after;
    }
    Ok(())
}
