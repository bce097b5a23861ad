// Words on standard input and output: four bytes each, the lowest first. A buffer is its length, then its elements, a
// word to each. What the input does not hold whole, or what does not fit where it is to go, is unreadable.
// An answer is put together in the raw buffer and sent by one write.
use std::io::Read;
use streams::Failed;

// Where calls are read and answers are written; of the raw buffer an answer fills the front. No Vec: no heap.
#[derive(Drop)]
pub struct Wire<'h, 'i, 'r, H, I> {
    rt: &'h H,
    input: &'i mut I,
    raw: &'r mut [u8],
    filled: usize,
}

impl<'h, 'i, 'r, H: Print + Eprint, I: Read> Wire<'h, 'i, 'r, H, I> {
    pub fn new(rt: &'h H, input: &'i mut I, raw: &'r mut [u8]) -> Self {
        Wire {
            rt,
            input,
            raw,
            filled: 0,
        }
    }

    // Says that a call cannot be read.
    pub fn unreadable(&self) -> Failed {
        unreadable(self.rt)
    }

    // A call's operation, or none where the input ends before it.
    pub fn operation(&mut self) -> Result<Option<u32>, Failed> {
        let mut raw = [0; 4];
        match streams::read_input(self.rt, self.input, &mut raw)? {
            0 => Ok(None),
            4 => Ok(Some(u32::from_le_bytes(raw))),
            _ => Err(unreadable(self.rt)),
        }
    }

    pub fn word(&mut self) -> Result<u32, Failed> {
        let mut raw = [0; 4];
        fill(self.rt, self.input, &mut raw)?;
        Ok(u32::from_le_bytes(raw))
    }

    // As many words as there are places for, in one read, with no length before them.
    pub fn words<const N: usize>(&mut self) -> Result<[u32; N], Failed> {
        let mut words = [0; N];
        self.elements(&mut words)?;
        Ok(words)
    }

    // A buffer of words, or of bytes, put at the start of what is lent.
    pub fn buffer<'b, T: Copy + TryFrom<u32>>(
        &mut self,
        lent: &'b mut [T],
    ) -> Result<&'b mut [T], Failed>
    where
        T::Error: Drop,
    {
        let count = self.word()? as usize;
        let Some(elements) = lent.get_mut(..count) else {
            return Err(unreadable(self.rt));
        };
        self.elements(elements)?;
        Ok(elements)
    }

    // A word of the input for each element.
    fn elements<T: Copy + TryFrom<u32>>(&mut self, elements: &mut [T]) -> Result<(), Failed>
    where
        T::Error: Drop,
    {
        let count = elements.len();
        let raw = &mut *self.raw;
        if raw.len() / 4 < count {
            return Err(unreadable(self.rt));
        }
        fill(self.rt, self.input, &mut raw[..4 * count])?;
        for (element, word) in elements.iter_mut().zip(raw.chunks_exact(4)) {
            let Ok(value) = T::try_from(word_of(word)) else {
                return Err(unreadable(self.rt));
            };
            *element = value;
        }
        Ok(())
    }

    // Words of the answer, or bytes, a word to each. (Nothing is put past the raw buffer's end: no answer is so long.)
    pub fn put<T: Copy + Into<u32>>(&mut self, elements: &[T]) {
        let filled = self.filled;
        let raw = &mut *self.raw;
        let Some(free) = raw.get_mut(filled..) else {
            return;
        };
        let count = elements.len().min(free.len() / 4);
        for (place, element) in free.chunks_exact_mut(4).zip(elements) {
            let word: u32 = (*element).into();
            place.copy_from_slice(&word.to_le_bytes());
        }
        self.filled = filled + 4 * count;
    }

    // A count, as a word of the answer.
    pub fn put_count(&mut self, count: usize) {
        self.put(&[(count & 0xffff_ffff) as u32]);
    }

    // A buffer of words, or of bytes, in the answer.
    pub fn put_buffer<T: Copy + Into<u32>>(&mut self, elements: &[T]) {
        self.put_count(elements.len());
        self.put(elements);
    }

    // The answer is written, and the next one begins.
    pub fn send(&mut self) -> Result<(), Failed> {
        let rt = self.rt;
        let filled = self.filled;
        self.filled = 0;
        let raw = &*self.raw;
        streams::print(rt, &raw[..filled.min(raw.len())])
    }
}

// Says that a call cannot be read.
fn unreadable(rt: &impl Eprint) -> Failed {
    let _ = eprintln!(rt; "probe: a call that cannot be read");
    Failed
}

// All of raw from the input.
fn fill(rt: &impl Eprint, input: &mut impl Read, raw: &mut [u8]) -> Result<(), Failed> {
    if streams::read_input(rt, input, raw)? < raw.len() {
        return Err(unreadable(rt));
    }
    Ok(())
}

// The word that four bytes are.
fn word_of(raw: &[u8]) -> u32 {
    raw.try_into().map_or(0, u32::from_le_bytes)
}
