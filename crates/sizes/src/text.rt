// Texts: the word of a refusal's number, and a text over a slice.
ghost use Rattle.std.specs.Prelude.{◌≡◌};
ghost use Rattle.sizes.specs.Words.{Told, told, refusal_word};

use vectors::set_each;

// The word of the refusal with this number; no text where none has it.
#[tactic(auto, unfolding(crate::specs::Words::refusal_word, crate::specs::Words::word_in))]
pub fn refusal_word(number: u32) -> &'static [u8]
    ensures { result.now ≡ refusal_word number }
{
    match number {
        1 => b"form",
        2 => b"modulus",
        3 => b"composite",
        4 => b"size",
        5 => b"turn",
        6 => b"mark",
        7 => b"stranger",
        8 => b"residue",
        9 => b"dry",
        10 => b"singular",
        _ => b"",
    }
}

// A text over the slice's start, and its length; nothing where the slice has no room.
#[tactic(auto, unfolding(crate::specs::Words::told, algebra::specs::Words::over))]
pub fn put_text(text: &[u8], out: &mut [u8]) -> usize
    ensures { ◌≡◌ {A = Told} (record { bytes = result; slice = out.new }) (told text.now out.old) }
{
    let n = text.len();
    if out.len() < n {
        return 0;
    }
    // Byte by byte, and no `copy_from_slice`: an archive for C is to need no memmove.
    set_each(n, out, |j, _| text[j]);
    n
}
