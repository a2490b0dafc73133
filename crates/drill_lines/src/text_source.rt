ghost use Rattle.std.specs.Prelude.{◌≡◌};
ghost use Rattle.drill_lines.specs.TextView.{text_view};

use fw_outside::{Failed, Got, Source};

/// A text as a source of bytes, which never fails.
#[derive(Drop)]
pub(crate) struct TextSource<'a> {
    left: &'a [u8],
    amount: u64,
    waits: u32,
}

impl<'a> TextSource<'a> {
    /// The whole text.
    pub(crate) fn new(text: &'a [u8]) -> TextSource<'a>
        ensures left { result.left.now ≡ text.entry.now }
    {
        TextSource {
            left: text,
            amount: 0,
            waits: 3600,
        }
    }
}

impl<'a> Source for TextSource<'a> {
    ghost source_view = { λ source. text_view source.left.now source.amount source.waits };

    fn take(&mut self, buf: &mut [u8]) -> Result<Got, Failed> {
        if self.left.is_empty() {
            return Ok(Got::End);
        }
        let count = buf.len().min(self.left.len());
        buf[..count].copy_from_slice(&self.left[..count]);
        self.left = &self.left[count..];
        self.amount = self.amount.saturating_add(count as u64);
        Ok(Got::Bytes(count))
    }

    fn patience(&mut self, seconds: u32) {
        self.waits = seconds;
    }
}
