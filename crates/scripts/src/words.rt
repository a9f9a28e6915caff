//! The words of a text: what stands between blanks.

ghost use Rattle.std.specs.Prelude.{◌≡◌, ◌∷◌, [], ◌<◌, length, IfSome, IfNone};
ghost use Rattle.scripts.specs.Words.{words_of, AreWords};

use bpf_asm::cut::{is_blank, split_word};

/// The first word of a text and what follows it, or `None` where there is no word.
pub fn first_word(text: &[u8]) -> Option<(&[u8], &[u8])>
    ensures some { IfSome result (λ r. words_of text.now ≡ r.0.now ∷ words_of r.1.now) }
    ensures shorter { IfSome result (λ r. length r.1.now < length text.now) }
    ensures none { IfNone result (words_of text.now ≡ []) }
{
    let start = text.iter().position(|&b| !is_blank(b))?;
    Some(split_word(&text[start..]))
}

/// The first four words of a text, empty where there are fewer, and how many there are in all.
#[derive(Clone, Copy)]
pub struct Words<'a> {
    pub first: &'a [u8],
    pub second: &'a [u8],
    pub third: &'a [u8],
    pub fourth: &'a [u8],
    pub count: usize,
}

/// The words of a text.
pub fn cut(text: &[u8]) -> Words<'_>
    ensures { AreWords (words_of text.now) result }
{
    let mut words: [&[u8]; 4] = [&[]; 4];
    let mut count = 0;
    let mut rest = text;
    'words: while let Some((word, after)) = first_word(rest) {
        if count < words.len() {
            words[count] = word;
        }
        count += 1;
        rest = after;
    }
    let [first, second, third, fourth] = words;
    Words {
        first,
        second,
        third,
        fourth,
        count,
    }
}
