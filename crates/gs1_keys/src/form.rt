//! Forms of serials.
ghost use Rattle.std.specs.Prelude.{◌≡◌, ◌<◌, length, true};
ghost use Rattle.std.specs.List.{list_all};
ghost use Rattle.gs1_keys.specs.Forms.{base, base32, character, is_character, longest, number_in, form_size, half_size, text_in, is_form, is_in_form};

use crate::text::Text20;

/// The characters of a serial, each with its value.
#[derive(Clone, Copy, Debug, PartialEq, Eq)]
pub enum Alphabet {
    /// The digits 0 to 9.
    Digits,
    /// The 32 characters `0123456789ABCDEFGHJKMNPQRSTVWXYZ`: no letter that looks like a digit, and no `U`.
    Base32,
}

/// What the serials of a product look like.
#[derive(Clone, Copy, Debug, PartialEq, Eq)]
pub struct SerialForm {
    /// The characters.
    pub alphabet: Alphabet,
    /// How many there are: 6 to 18 digits, or 6 to 12 of the 32 characters.
    pub length: u8,
}

/// The 32 characters, in the order of their values.
fn base32_characters() -> &'static [u8; 32]
    ensures { result.now ≡ base32 }
{
    b"0123456789ABCDEFGHJKMNPQRSTVWXYZ"
}

impl Alphabet {
    /// How many characters there are.
    pub fn base(&self) -> u64
        ensures { result ≡ base self.now }
    {
        match self {
            Alphabet::Digits => 10,
            Alphabet::Base32 => 32,
        }
    }

    /// How many characters a serial has at most, so that its number stays below 2^64.
    pub fn longest(&self) -> u8
        ensures { result ≡ longest self.now }
    {
        match self {
            Alphabet::Digits => 18,
            Alphabet::Base32 => 12,
        }
    }

    /// The character of a value, which is below the base.
    fn character(&self, value: u64) -> u8
        requires { value < base self.now }
        ensures { result ≡ character self.now value }
    {
        match self {
            Alphabet::Digits => b'0' + value as u8,
            Alphabet::Base32 => base32_characters()[value as usize],
        }
    }

    /// Whether a byte is one of its characters.
    pub fn has(&self, byte: u8) -> bool
        ensures { result ≡ is_character self.now byte }
    {
        match self {
            Alphabet::Digits => byte.is_ascii_digit(),
            Alphabet::Base32 => base32_characters().contains(&byte),
        }
    }

    /// Whether all bytes are its characters.
    fn has_all(&self, bytes: &[u8]) -> bool
        ensures { result ≡ list_all (is_character self.now) bytes.now }
    {
        bytes.iter().all(|byte| self.has(*byte))
    }

    /// Writes the last characters of a number, as many as there is room for, with zeros on the left.
    pub fn write(&self, out: &mut [u8], number: u64)
        ensures { out.new ≡ number_in self.now (length out.old) number }
    {
        let mut rest = number;
        let mut at = out.len();
        while at > 0 {
            at -= 1;
            out[at] = self.character(rest % self.base());
            rest /= self.base();
        }
    }
}

impl SerialForm {
    /// Whether the length is in the range of the alphabet.
    pub fn is_proper(&self) -> bool
        ensures { result ≡ is_form self.now }
    {
        6 <= self.length && self.length <= self.alphabet.longest()
    }

    /// How many serials have the form.
    #[tactic(auto, using(crate::proofs::Forming::size_fits, crate::proofs::Forming::some_serials))]
    pub fn size(&self) -> u64
        requires { is_form self.now ≡ true }
        ensures is { result ≡ form_size self.now }
        ensures positive { 0 < result }
    {
        self.alphabet.base().pow(u32::from(self.length))
    }

    /// Half of them, beyond which none is drawn any more.
    pub fn half(&self) -> u64
        requires { is_form self.now ≡ true }
        ensures { result ≡ half_size self.now }
    {
        self.size() / 2
    }

    /// The text of a number in the form: its last characters, with zeros on the left.
    #[tactic(auto, using(crate::proofs::Forming::written))]
    pub fn text(&self, number: u64) -> Text20
        requires { is_form self.now ≡ true }
        ensures { result ≡ text_in self.now number }
    {
        let mut buffer = [0; 18];
        let text = &mut buffer[..usize::from(self.length)];
        self.alphabet.write(text, number);
        match Text20::read(text) {
            Ok(serial) => serial,
            Err(_) => unreachable!(),
        }
    }

    /// Whether a text is of the form.
    pub fn has(&self, text: &Text20) -> bool
        ensures { result ≡ is_in_form self.now text.now }
    {
        let bytes = text.bytes();
        bytes.len() == usize::from(self.length) && self.alphabet.has_all(bytes)
    }
}
