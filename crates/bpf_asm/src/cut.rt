//! A line cut into its word and its operands.

ghost use Rattle.std.specs.Prelude.{◌≡◌, ◌<◌, ◌==◌, length, map, IfSome, IfNone};
ghost use Rattle.std.specs.List.{before_first};
ghost use Rattle.bpf_asm.specs.Cutting.{is_blank, trim, word_of, rest_of, operand_texts};
ghost use Rattle.bpf_asm.specs.Texts.{AreOperands};

/// Whether it is a space or a tab; a form feed is part of a word.
pub fn is_blank(byte: u8) -> bool
    ensures { result ≡ is_blank byte }
{
    byte == b' ' || byte == b'\t'
}

/// The text without blanks at its ends.
pub fn trim(text: &[u8]) -> &[u8]
    ensures { result.now ≡ trim text.now }
{
    let start = text.iter().take_while(|&&b| is_blank(b)).count();
    let rest = &text[start..];
    let trailing = rest.iter().rev().take_while(|&&b| is_blank(b)).count();
    &rest[..rest.len() - trailing]
}

/// What stands before the first such byte, or all.
pub fn before(text: &[u8], byte: u8) -> &[u8]
    ensures { result.now ≡ before_first (λ b. b == byte) text.now }
{
    match text.iter().position(|&b| b == byte) {
        Some(end) => &text[..end],
        None => text,
    }
}

/// The first word, and what follows it.
pub fn split_word(text: &[u8]) -> (&[u8], &[u8])
    ensures { (result.0.now ≡ word_of text.now) × (result.1.now ≡ rest_of text.now) }
{
    match text.iter().position(|&b| is_blank(b)) {
        Some(end) => text.split_at(end),
        None => (text, &[]),
    }
}

/// The first three operands, empty where there are fewer, and how many there are.
#[derive(Clone, Copy)]
pub struct Operands<'a> {
    pub first: &'a [u8],
    pub second: &'a [u8],
    pub third: &'a [u8],
    pub count: usize,
}

const NO_OPERANDS: Operands<'static> = Operands {
    first: &[],
    second: &[],
    third: &[],
    count: 0,
};

/// The operands, or `None` where they are more than three.
pub fn split_operands(rest: &[u8]) -> Option<Operands<'_>>
    ensures some { IfSome result (λ r. AreOperands (operand_texts rest.now) r) }
    ensures none { IfNone result (3 < length (operand_texts rest.now)) }
{
    if trim(rest).is_empty() {
        return Some(NO_OPERANDS);
    }
    let mut texts: [&[u8]; 3] = [&[]; 3];
    let mut count = 0;
    'parts: for part in rest.split(|&b| b == b',') {
        if count == texts.len() {
            return None;
        }
        texts[count] = trim(part);
        count += 1;
    }
    let [first, second, third] = texts;
    Some(Operands {
        first,
        second,
        third,
        count,
    })
}
