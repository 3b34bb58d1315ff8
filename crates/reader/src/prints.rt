// Prints: a number for each tag, so that most tags are told apart without being compared
// (docs/FORMATS.md, "Refusal numbers", 6).
ghost use Rattle.std.specs.Prelude.{◌≡◌, not, eqb};
ghost use Rattle.std.specs.List.{list_all};
ghost use Rattle.reader.specs.Prints.{print_of};

// The print of a tag's 64 bytes, four of which make a number, low byte first.
pub fn print_of(tag: &[u8; 64]) -> u32
    ensures { result ≡ print_of tag.now }
{
    let mut sum: u64 = 0;
    let mut sums: u64 = 0;
    let (words, _) = tag.as_chunks::<4>();
    for word in words {
        sum += u64::from(u32::from_le_bytes(*word));
        sums += sum;
    }
    (sums % 4294967291) as u32
}

// Whether none of these prints is p. All are compared, so that the compiler takes several at a time.
pub fn unlike(prints: &[u32], p: u32) -> bool
    ensures { result ≡ list_all (λ q. not (eqb q p)) prints.now }
{
    prints.iter().fold(true, |none, &q| none & (q != p))
}
