// The check of a text by itself.
ghost use Rattle.std.specs.Prelude.{◌≡◌};
ghost use Rattle.text.specs.Utf8.{utf8_of};
ghost use Rattle.capi.specs.Text.{text_numbers};

use refusal::Refusal;

// Whether bytes are a text, and its number of Unicode scalar values.
#[repr(C)]
#[derive(Clone, Copy)]
pub struct TextAnswer {
    pub refusal: u32,
    pub chars: usize,
}

#[unsafe(no_mangle)]
pub extern "C" fn lateenbael_from_utf8(bytes: &[u8]) -> TextAnswer
    ensures { result ≡ text_numbers (utf8_of bytes.now) }
{
    match text::from_utf8(bytes) {
        Some(chars) => TextAnswer { refusal: 0, chars },
        None => TextAnswer {
            refusal: refusal::number(Refusal::Text),
            chars: 0,
        },
    }
}
