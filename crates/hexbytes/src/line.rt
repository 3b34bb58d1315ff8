// A line with its bytes, and one that is well formed (docs/FORMATS.md, "Site text").
ghost use Rattle.std.specs.Prelude.{◌≡◌, true, false, ◌+◌, ◌*◌, ◌/◌, ◌≤◌, ◌<◌, length, is_none, IfSome};
ghost use Rattle.hexline.specs.Digits.{byte_at, number_at};
ghost use Rattle.hexline.specs.Lines.{malformed};
ghost use Rattle.hexbytes.specs.Decoded.{Decoded};

// A line, decoded once: what it says is read off its bytes.
#[derive(Clone, Copy, Drop)]
pub struct Line<'a> {
    pub chars: &'a [u8],
    pub bytes: [u8; 68],
    ghost decoded: { Decoded chars.now bytes },
}

// A well-formed line.
#[derive(Clone, Copy, Drop)]
pub struct FormedLine<'a> {
    pub line: Line<'a>,
    ghost well_formed: { malformed 136 (record { chars = line.chars.now; ended = true }) ≡ false },
}

impl<'a> Line<'a> {
    // Decodes a line of at most `most` digits, which an LF has to end; none where it is malformed.
    pub fn decode(chars: &'a [u8], ended: bool, most: usize) -> Option<FormedLine<'a>>
        requires { most ≤ 136 }
        ensures none { is_none result ≡ malformed most (record { chars = chars.now; ended = ended }) }
        ensures of_chars { IfSome result (λ formed. formed.line.chars.now ≡ chars.now) }
    {
        if chars.is_empty() || chars.len() > most || chars.len() % 2 != 0 {
            return None;
        }
        let mut bytes = [0; 68];
        if !crate::decode(chars, &mut bytes) || !ended {
            return None;
        }
        let line = Line { chars, bytes };
        Some(FormedLine { line })
    }

    // How many bytes it has.
    pub fn len(&self) -> usize
        ensures { result ≡ length self.now.chars.now / 2 }
    {
        self.chars.len() / 2
    }

    // Byte k.
    pub fn byte(&self, k: usize) -> u8
        requires { 2 * k + 1 < length self.now.chars.now }
        ensures { result ≡ byte_at self.now.chars.now k }
    {
        self.bytes[k]
    }

    // The four bytes from byte k on, as a number.
    pub fn four_bytes(&self, k: usize) -> u32
        requires { 2 * (k + 4) ≤ length self.now.chars.now }
        ensures { result ≡ number_at self.now.chars.now k 4 }
    {
        ((u32::from(self.byte(k)) * 256 + u32::from(self.byte(k + 1))) * 256
            + u32::from(self.byte(k + 2)))
            * 256
            + u32::from(self.byte(k + 3))
    }
}
