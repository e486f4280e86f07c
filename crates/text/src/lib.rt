// Text: the bytes that part and end its lines; and bytes, words and decimal numbers written into a lent
// buffer, as far as they fit.
#![tactic(auto)]

ghost use Rattle.std.specs.Prelude.{true, cond, Some, None, ◌≡◌};
ghost use Rattle.text.specs.Decimal.{decimal};
ghost use Rattle.text.specs.Lent.{lent, with_byte, with_text};

// What parts the words of a line, and what ends the line.
pub const SPACE: u8 = b' ';

pub const LINE_FEED: u8 = b'\n';

// A lent buffer, where the next byte goes in it, and whether all bytes up to there found room: after a cut the
// place is still told, so it is no Option.
#[derive(Drop)]
pub struct Lent<'a> {
    pub page: &'a mut [u8],
    pub at: usize,
    pub whole: bool,
}

impl<'a> Lent<'a> {
    // A buffer from its start, nothing written yet.
    pub fn new(page: &'a mut [u8]) -> Lent<'a>
        ensures { result ≡ lent page.entry 0 true }
    {
        Lent {
            page,
            at: 0,
            whole: true,
        }
    }

    // How many bytes are written, if all of them found room.
    pub fn written(&self) -> Option<usize>
        ensures { result ≡ cond self.now.whole (Some self.now.at) None }
    {
        self.whole.then_some(self.at)
    }

    #[tactic(auto, unfolding(crate::specs::Lent::with_byte))]
    pub fn put_byte(&mut self, byte: u8)
        ensures { self.new ≡ with_byte self.old byte }
    {
        if self.at < self.page.len() {
            self.page[self.at] = byte;
            self.at += 1;
        } else {
            self.whole = false;
        }
    }

    pub fn put_word(&mut self, word: &[u8])
        ensures { self.new ≡ with_text self.old word.now }
    {
        for byte in word {
            self.put_byte(*byte);
        }
    }

    // A number's decimal digits: its tens first, and then its last digit. By hand: no library may use
    // `write!` (`.ci/axioms`), and each line would have to hand on an error that never comes.
    #[tactic(auto, using(crate::proofs::NumberRules::number_rules))]
    pub fn put_number(&mut self, n: usize)
        ensures { self.new ≡ with_text self.old (decimal n) }
    {
        if n < 10 {
            self.put_byte(b'0' + (n as u8));
        } else {
            self.put_number(n / 10);
            self.put_byte(b'0' + ((n % 10) as u8));
        }
    }
}
