// A line of text at the front of a buffer. It is for this crate alone: each method appends to the line, and asks for room in the buffer.
ghost use Rattle.std.specs.Prelude.{[], ◌∷◌, ◌+◌, ◌<◌, ◌≤◌, length, decimal};
ghost use Rattle.answer_line.specs.AnswerLine.{numbers};
ghost use Rattle.answer_line.specs.inner.Writing.{Appended};

// The first `len` bytes are the line.
#[derive(Drop)]
pub struct Line<'a> {
    pub bytes: &'a mut [u8],
    pub len: usize,
}

impl Line<'_> {
    // One byte.
    pub fn byte(&mut self, byte: u8)
        requires { self.old.len < length self.old.bytes.now }
        ensures { Appended self.old (byte ∷ []) self.new }
    {
        self.bytes[self.len] = byte;
        self.len += 1;
    }

    // The bytes of a word.
    pub fn word(&mut self, word: &[u8])
        requires { self.old.len + length word.now ≤ length self.old.bytes.now }
        ensures { Appended self.old word.now self.new }
    {
        let end = self.len + word.len();
        self.bytes[self.len..end].copy_from_slice(word);
        self.len = end;
    }

    // The decimal digits of a number, from the left: those of n / 10, then the last one.
    fn digits(&mut self, n: u32)
        requires { self.old.len + length (decimal n) ≤ length self.old.bytes.now }
        ensures { Appended self.old (decimal n) self.new }
    {
        if n >= 10 {
            self.digits(n / 10);
        }
        self.byte(b'0' + (n % 10) as u8);
    }

    // A blank and a number.
    pub fn number(&mut self, n: u32)
        requires { self.old.len + 11 ≤ length self.old.bytes.now }
        ensures appended { Appended self.old (numbers (n ∷ [])) self.new }
        ensures upper_bound { self.new.len ≤ self.old.len + 11 }
    {
        self.byte(b' ');
        self.digits(n);
    }
}
