// The pieces of a text, the words of a line, and the numbers among them.
#![tactic(auto)]

ghost use Rattle.std.specs.Prelude.{◌≡◌, ◌<◌, ◌≤◌, ◌==◌, true, length};
ghost use Rattle.std.specs.List.{position_or_len};
ghost use Rattle.std.specs.Iterator.{YieldsFirstRef, item_count};
ghost use Rattle.words.specs.Cuts.{first_piece};
ghost use Rattle.words.specs.Words.{words_of, words_left};
ghost use Rattle.words.specs.Number.{plain, number_of};

// A number in decimal, of any length: `0`, or digits with no 0 in front. One too large for 64 bits counts as the largest.
pub fn number(word: &[u8]) -> Option<u64>
    ensures { result ≡ number_of word.now }
{
    // no digits, or a 0 in front of others
    if matches!(word, [] | [b'0', _, ..]) {
        return None;
    }
    let mut n: u64 = 0;
    for b in word {
        let digit = char::from(*b).to_digit(10)?;
        n = n.saturating_mul(10).saturating_add(u64::from(digit));
    }
    Some(n)
}

// The words of a line that are still to be read.
#[derive(Clone, Copy)]
pub struct Words<'a> {
    // what stands behind the last word read; none once all have been read
    rest: Option<&'a [u8]>,
}

impl<'a> Words<'a> {
    pub fn of(line: &'a [u8]) -> Words<'a>
        ensures { words_left result ≡ words_of line.now }
    {
        Words { rest: Some(line) }
    }
}

impl<'a> Iterator for Words<'a> {
    type Item = &'a [u8];

    ghost next_gives = { YieldsFirstRef words_left };

    ghost remaining = { item_count words_left };

    fn next(&mut self) -> Option<&'a [u8]> {
        let line = self.rest?;
        let end = length_before(line, b' ');
        self.rest = line.get(end + 1..);
        Some(&line[..end])
    }
}

// What stands before the first byte `stop`, or the whole text where there is none.
pub fn piece(text: &[u8], stop: u8) -> &[u8]
    ensures piece { result.now ≡ first_piece stop text.now }
    ensures within { length result.now ≤ length text.now }
{
    &text[..length_before(text, stop)]
}

// How many bytes that is.
fn length_before(text: &[u8], stop: u8) -> usize
    ensures answer { result ≡ position_or_len (λ b. b == stop) text.now }
    ensures within { result ≤ length text.now }
{
    text.iter().position(|b| *b == stop).unwrap_or(text.len())
}
