// The lines of a text, one after another (docs/FORMATS.md, "Site text").
ghost use Rattle.std.specs.Iterator.{YieldsFirstBy, item_count};

// A line: its characters, and whether an LF ends it.
#[derive(Clone, Copy)]
pub struct Row<'a> {
    pub chars: &'a [u8],
    pub ended: bool,
}

// The lines that are left of a text.
#[derive(Drop)]
pub struct Rows<'a> {
    pub text: &'a [u8],
}

impl<'a> Iterator for Rows<'a> {
    ghost use Rattle.reader.specs.Rows.{row_of, rows_of};

    type Item = Row<'a>;

    ghost next_gives = { YieldsFirstBy row_of rows_of };

    ghost remaining = { item_count rows_of };

    fn next(&mut self) -> Option<Row<'a>> {
        if self.text.is_empty() {
            return None;
        }
        let end = hexline::line_end(self.text, 0);
        let ended = end < self.text.len();
        let chars = &self.text[..end];
        let next = end + usize::from(ended);
        self.text = &self.text[next..];
        Some(Row { chars, ended })
    }
}
