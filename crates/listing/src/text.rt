// A text in a fixed buffer, into which words and numbers are put one behind the other.
ghost use Rattle.std.specs.Prelude.{◌≡◌, ℕ, List, [], ◌+◌, ◌≤◌, ◌++◌, length, take};
ghost use Rattle.listing.specs.Text.{decimal};
ghost use Rattle.listing.specs.Listing.{most_text};
ghost use Rattle.listing.specs.Parts.{number_room};

use lists::copy;
use std::marker::Model;

// The most bytes that a text has.
const MOST_TEXT: usize = 8385;

// A contract sees the bytes of the text, which are the first `end` bytes of the buffer.
#[derive(Drop)]
pub(crate) struct Text {
    // Stays: fixed memory, no heap; MOST_TEXT is the most that a listing has (`most_text`).
    buffer: [u8; MOST_TEXT],
    end: usize,
}

impl Model for Text {
    ghost Value = { List ℕ };

    ghost view = { λ t. take t.end t.buffer };

    ghost invariant = { λ t. t.end ≤ 8385 };
}

impl Text {
    // Returns an empty text.
    pub(crate) fn new() -> Text
        ensures { result ≡ [] }
    {
        Text {
            buffer: [0; MOST_TEXT],
            end: 0,
        }
    }

    // Returns the bytes of the text.
    pub(crate) fn bytes(&self) -> &[u8]
        ensures { result.now ≡ self.now }
    {
        &self.buffer[..self.end]
    }

    // Puts a word.
    pub(crate) fn word(&mut self, word: &[u8])
        requires { length self.old + length word.now ≤ most_text }
        ensures { self.new ≡ self.old ++ word.now }
    {
        copy(word, &mut self.buffer[self.end..]);
        self.end += word.len();
    }

    // Puts a number's decimal digits.
    pub(crate) fn decimal(&mut self, n: usize)
        requires { length self.old + number_room ≤ most_text }
        ensures puts { self.new ≡ self.old ++ decimal n }
        ensures upper_bound { length self.new ≤ length self.old + number_room }
    {
        let mut digits = [0u8; 20];
        let count = io::decimal(n as u64, &mut digits);
        self.word(&digits[..count]);
    }

    // Puts a word, and a number behind it.
    pub(crate) fn named(&mut self, word: &[u8], n: usize)
        requires { length self.old + length word.now + number_room ≤ most_text }
        ensures puts { self.new ≡ self.old ++ word.now ++ decimal n }
        ensures upper_bound { length self.new ≤ length self.old + length word.now + number_room }
    {
        self.word(word);
        self.decimal(n);
    }
}
