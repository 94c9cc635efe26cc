// Bytes of which the first are used.

#[derive(Clone, Copy)]
pub struct Area<const N: usize> {
    bytes: [u8; N],
    used: usize,
}

impl<const N: usize> Area<N> {
    pub fn new() -> Area<N> {
        Area {
            bytes: [0; N],
            used: 0,
        }
    }

    pub fn used(&self) -> &[u8] {
        script_text::front(&self.bytes, self.used)
    }

    pub fn used_mut(&mut self) -> &mut [u8] {
        let n = self.used.min(N);
        &mut self.bytes[..n]
    }

    // So many bytes of one value, or as many as there is room for.
    pub fn fill(&mut self, count: usize, value: u8) {
        self.used = count.min(N);
        self.used_mut().fill(value);
    }

    // One byte is changed, also behind those that are used.
    pub fn poke(&mut self, place: usize, value: u8) {
        if place < N {
            self.bytes[place] = value;
        }
    }

    // These bytes, where there is room for them.
    pub fn hold(&mut self, text: &[u8]) {
        if text.len() <= N {
            self.bytes[..text.len()].copy_from_slice(text);
            self.used = text.len();
        }
    }
}
