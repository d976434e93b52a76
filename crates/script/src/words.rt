// A text's lines, and a line's words.
ghost use Rattle.std.specs.Prelude.{◌≡◌, ◌≤◌, ◌==◌, true, false, not, [], length, position, is_some, Some, None, MatchOption, IfOk};
ghost use Rattle.std.specs.Iterator.{at_most};
ghost use Rattle.std.specs.Option.{option_map};
ghost use Rattle.script.specs.Faults.{Read};
ghost use Rattle.script.specs.Parting.{up_to, after, after_word, after_line, left_of, next_of, words_left, word_number};

use super::fault::Fault;
use super::numbers::number;

// Where a byte first stands.
fn find(text: &[u8], mark: u8) -> Option<usize>
    ensures { result ≡ position (λ b. b == mark) text.now }
{
    text.iter().position(|b| *b == mark)
}

// What stands before a byte's first place, and what stands after it, if it is there.
fn cut(text: &[u8], mark: u8) -> (&[u8], Option<&[u8]>)
    ensures front { result.0.now ≡ up_to mark text.now }
    ensures back { option_map (λ x. x.now) result.1 ≡ after mark text.now }
{
    match find(text, mark) {
        Some(k) => (&text[..k], Some(&text[k + 1..])),
        None => (text, None),
    }
}

// The lines of a text that are yet to come. A last one without a line feed is a line too.
#[derive(Clone, Copy)]
pub struct Lines<'a> {
    rest: &'a [u8],
}

impl<'a> Lines<'a> {
    // All lines of a text.
    pub fn new(text: &'a [u8]) -> Lines<'a>
        ensures { result.rest.now ≡ text.now }
    {
        Lines { rest: text }
    }
}

impl<'a> Iterator for Lines<'a> {
    type Item = &'a [u8];

    ghost next_gives = { λ s r t. MatchOption r (s.rest.now ≡ []) (λ line. (line.now ≡ up_to 10 s.rest.now) × (t.rest.now ≡ after_line s.rest.now)) };

    ghost remaining = { λ s. at_most (length s.rest.now) };

    // The next line, without its line feed.
    fn next(&mut self) -> Option<&'a [u8]> {
        if self.rest.is_empty() {
            return None;
        }
        let (line, rest) = cut(self.rest, b'\n');
        self.rest = rest.unwrap_or(&[]);
        Some(line)
    }
}

// The words of a line that are yet to come. Blanks part them, so that a blank too many makes a word of no bytes, which is no word
// of the grammar.
#[derive(Clone, Copy)]
pub struct Words<'a> {
    rest: Option<&'a [u8]>,
}

impl<'a> Words<'a> {
    // All words of a line.
    pub fn new(line: &'a [u8]) -> Words<'a>
        ensures { left_of result ≡ Some line.now }
    {
        Words { rest: Some(line) }
    }

    // The next word, which stays.
    pub fn peek(&self) -> Option<&'a [u8]>
        ensures { option_map (λ x. x.now) result ≡ next_of (left_of self.now) }
    {
        let (word, _) = cut(self.rest?, b' ');
        Some(word)
    }

    // Whether no word is left.
    pub fn is_empty(&self) -> bool
        ensures { result ≡ not (is_some self.now.rest) }
    {
        self.rest.is_none()
    }
}

impl<'a> Iterator for Words<'a> {
    type Item = &'a [u8];

    ghost next_gives = { λ s r t. (option_map (λ x. x.now) r ≡ next_of (left_of s)) × (left_of t ≡ after_word (left_of s)) };

    ghost remaining = { λ s. at_most (words_left (left_of s)) };

    // The next word.
    fn next(&mut self) -> Option<&'a [u8]> {
        let (word, rest) = cut(self.rest?, b' ');
        self.rest = rest;
        Some(word)
    }
}

// The next word, where there must be one.
pub fn next_word<'a>(words: &mut Words<'a>) -> Result<&'a [u8], Fault>
    ensures word { Read result (λ word. next_of (left_of words.old) ≡ Some word.now) (left_of words.old ≡ None) }
    ensures left { left_of words.new ≡ after_word (left_of words.old) }
{
    words.next().ok_or(Fault::Bad)
}

// The next word as a number.
pub fn next_number(words: &mut Words) -> Result<u32, Fault>
    ensures number { Read result (λ n. word_number (left_of words.old) ≡ Some n) (word_number (left_of words.old) ≡ None) }
    ensures left { left_of words.new ≡ after_word (left_of words.old) }
{
    let word = words.next().ok_or(Fault::Bad)?;
    number(word).ok_or(Fault::Bad)
}

// The most pages that a medium has, and the most bytes of a work page.
const MOST: u32 = 4096;

// The next word as a number of which a script has no greater one, of pages or of a work page's bytes.
pub fn next_size(words: &mut Words) -> Result<usize, Fault>
    ensures number { IfOk result (λ n. (n ≤ 4096) × (word_number (left_of words.old) ≡ Some n)) }
    ensures left { left_of words.new ≡ after_word (left_of words.old) }
{
    let n = next_number(words)?;
    if n > MOST {
        return Err(Fault::Bad);
    }
    Ok(n as usize)
}

// That a line ends here.
pub fn check_end(words: &Words) -> Result<(), Fault>
    ensures { Read result (λ _. is_some words.now.rest ≡ false) (is_some words.now.rest ≡ true) }
{
    if words.is_empty() {
        Ok(())
    } else {
        Err(Fault::Bad)
    }
}
