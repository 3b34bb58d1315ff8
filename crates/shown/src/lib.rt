// The part of a text that is shown for a line (docs/FORMATS.md, "Refusal numbers").
#![tactic(auto)]

ghost use Rattle.std.specs.Prelude.{◌≡◌};
ghost use Rattle.shown.specs.Shown.{line_start, Shown};

// Where line k begins in a text, lines counted from 1; the text's end where there is no line k.
pub fn line_start(text: &[u8], k: usize) -> usize
    ensures { result ≡ line_start text.now k }
{
    if k == 0 {
        return text.len();
    }
    let mut left = k - 1;
    for (at, &b) in text.iter().enumerate() {
        if left == 0 {
            return at;
        }
        if b == b'\n' {
            left -= 1;
        }
    }
    text.len()
}

// The part of a text that is shown for line k: the line without its LF, or the empty part at the
// text's end where there is no line k.
pub fn line_at(text: &[u8], k: usize) -> &[u8]
    ensures { Shown text.entry result k }
{
    let start = line_start(text, k);
    let end = hexline::line_end(text, start);
    &text[start..end]
}
