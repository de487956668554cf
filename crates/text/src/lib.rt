// Text written into a buffer of bytes.
#![tactic(auto)]

ghost use Rattle.std.specs.Prelude.{◌≡◌, decimal};
ghost use Rattle.text.specs.Put.{Put};

use itoa::Buffer;

#[cfg(test)]
mod tests;

// A text of `len` bytes at the front of a buffer. It grows at its end, and the bytes behind it stay. The buffer is the caller's, as
// libraries here use no heap.
#[derive(Drop)]
pub struct Text<'a> {
    pub out: &'a mut [u8],
    pub len: usize,
}

impl<'a> Text<'a> {
    // The text of no bytes.
    pub fn new(out: &'a mut [u8]) -> Text<'a>
        ensures same { result.out.ghost_name ≡ out.entry.ghost_name }
        ensures buffer { result.out.now ≡ out.entry.now }
        ensures empty { result.len ≡ 0 }
    {
        Text { out, len: 0 }
    }

    // Puts `bytes` at the end, or nothing where they do not fit. An error type would have one case, which only the job call would turn into
    // a refusal; of a `fmt::Write` nothing is known after an error, and here it is.
    pub fn put(&mut self, bytes: &[u8]) -> Option<()>
        ensures { Put bytes.now self.old self.new result }
    {
        let room = self.out.len().checked_sub(self.len)?;
        if bytes.len() > room {
            return None;
        }
        let end = self.len + bytes.len();
        self.out[self.len..end].copy_from_slice(bytes);
        self.len = end;
        Some(())
    }

    // Puts `n` in decimal, or nothing where it does not fit.
    pub fn put_number(&mut self, n: usize) -> Option<()>
        ensures { Put (decimal n) self.old self.new result }
    {
        // A digit alone needs no buffer.
        if n < 10 {
            return self.put(&[48 + n as u8]);
        }
        self.put(Buffer::new().format(n).as_bytes())
    }
}
