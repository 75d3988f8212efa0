// Standard output in large pieces.
ghost use Rattle.std.specs.Prelude.{◌≡◌, ◌≤◌};

use std::io::{Result, Write};

// What is said is put on a page, of which so many bytes are used and not yet written. Where writing fails, the answer is that error:
// a part of what was said may be written.
#[derive(Drop)]
pub struct Page<'a, P: Print, const N: usize> {
    rt: &'a P,
    bytes: [u8; N],
    used: usize,
    ghost in_range: { used ≤ N },
}

impl<'a, P: Print, const N: usize> Page<'a, P, N> {
    ghost use Rattle.std.specs.Prelude.{OnOk, OnErr};
    ghost use Rattle.console.specs.Page.{Put};

    pub fn new(rt: &'a P) -> Self
        ensures { result.used ≡ 0 }
    {
        Page {
            rt,
            bytes: [0; N],
            used: 0,
        }
    }

    // Both are written out, and the page is empty again. Where that fails, it is as it was.
    #[cold]
    #[inline(never)]
    fn write_out(&mut self, text: &[u8]) -> Result<()>
        ensures empties { OnOk result ((self.new.used ≡ 0) × (self.new.bytes ≡ self.old.bytes)) }
        ensures failed { OnErr result (self.new ≡ self.old) }
    {
        let used = self.used;
        self.rt.write_all(&self.bytes[..used])?;
        self.rt.write_all(text)?;
        self.used = 0;
        Ok(())
    }

    // Puts the text behind what the page has; where the page has no room, both are written out. Where that fails, the page is as it
    // was. What is rare stands apart, so that each piece of a line is put in place, without a call and its answer of 88 bytes.
    #[inline(always)]
    pub fn put(&mut self, text: &[u8]) -> Result<()>
        ensures puts { OnOk result (Put self.old.bytes self.old.used text.now self.new.used self.new.bytes) }
        ensures failed { OnErr result (self.new ≡ self.old) }
    {
        let used = self.used;
        let fits = text.len() <= N - used;
        if fits {
            let page = &mut self.bytes[..];
            page[used..used + text.len()].copy_from_slice(text);
            self.used += text.len();
            return Ok(());
        }
        self.write_out(text)
    }
}

impl<'a, P: Print, const N: usize> Write for Page<'a, P, N> {
    ghost use Rattle.std.specs.Prelude.{OnOk, OnErr, IfOk, length};
    ghost use Rattle.console.specs.Page.{Put};

    // All of it, as `put` has it.
    fn write(&mut self, buf: &[u8]) -> Result<usize>
        ensures takes { IfOk result (λ count. count ≡ length buf.now) }
        ensures puts { OnOk result (Put self.old.bytes self.old.used buf.now self.new.used self.new.bytes) }
        ensures failed { OnErr result (self.new ≡ self.old) }
    {
        self.write_all(buf)?;
        Ok(buf.len())
    }

    // As `put` has it.
    #[inline(always)]
    fn write_all(&mut self, buf: &[u8]) -> Result<()>
        ensures puts { OnOk result (Put self.old.bytes self.old.used buf.now self.new.used self.new.bytes) }
        ensures failed { OnErr result (self.new ≡ self.old) }
    {
        self.put(buf)
    }

    // Writes out what is on the page.
    fn flush(&mut self) -> Result<()>
        ensures empties { OnOk result ((self.new.used ≡ 0) × (self.new.bytes ≡ self.old.bytes)) }
        ensures failed { OnErr result (self.new ≡ self.old) }
    {
        self.rt.write_all(&self.bytes[..self.used])?;
        self.used = 0;
        Ok(())
    }
}
