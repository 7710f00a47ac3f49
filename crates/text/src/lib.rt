// Texts and numbers put on a page, a lent slice of bytes, one after the other and as far as the page reaches.
#![tactic(auto)]

ghost use Rattle.std.specs.Prelude.{◌≡◌, ◌++◌};
ghost use Rattle.text.specs.Page.{put_byte};
ghost use Rattle.text.specs.Text.{decimal_of, hex_of};

// A page, and the place on it that is written next.
#[derive(Drop)]
pub struct Page<'a> {
    pub bytes: &'a mut [u8],
    pub at: usize,
}

impl<'a> Page<'a> {
    ghost use Rattle.text.specs.OnPage.{laid, left, Puts};

    // A page that is written from its front on.
    pub fn new(bytes: &'a mut [u8]) -> Page<'a>
        ensures { result ≡ record { bytes = bytes.entry; at = 0 } }
    {
        Page { bytes, at: 0 }
    }

    // A byte, if there is room.
    pub fn put_byte(&mut self, b: u8)
        ensures { self.new ≡ left self.old (put_byte b (laid self.old)) }
    {
        if self.at < self.bytes.len() {
            self.bytes[self.at] = b;
            self.at += 1;
        }
    }

    // A text, as far as there is room.
    pub fn put(&mut self, text: &[u8])
        ensures { Puts text.now self.old self.new }
    {
        for &b in text {
            self.put_byte(b);
        }
    }

    // A number in decimal. By the kit's `io::decimal` and not by `write!`: that says what is written only where it answers Ok, and
    // nowhere that it does, while `list::write_list` says what stands on the page after every call (`page_after`).
    pub fn put_decimal(&mut self, n: u64)
        ensures { Puts (decimal_of n) self.old self.new }
    {
        let mut digits = [0u8; 20];
        let k = io::decimal(n, &mut digits);
        self.put(&digits[..k]);
    }

    // A number in hexadecimal, all 16 digits.
    pub fn put_hex(&mut self, n: u64)
        ensures { Puts (hex_of n) self.old self.new }
    {
        let mut digits = [0u8; 16];
        let k = io::hex(n, 16, &mut digits);
        self.put(&digits[..k]);
    }

    // A text, and a number after it.
    pub fn put_number(&mut self, text: &[u8], n: u64)
        ensures { Puts (text.now ++ decimal_of n) self.old self.new }
    {
        self.put(text);
        self.put_decimal(n);
    }
}
