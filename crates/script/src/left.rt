// What is left of a line, from whose front its numbers are taken in their order.
#[derive(Drop)]
pub struct Numbers<'a> {
    pub rest: &'a [u8],
}

impl Numbers<'_> {
    // The number of the next run of digits, of at most 18; 0 where no digit is left. No `parse`: it refuses a longer run, where
    // this goes on with the next number after eighteen digits.
    pub fn number(&mut self) -> usize {
        let words = self
            .rest
            .iter()
            .position(|c| c.is_ascii_digit())
            .unwrap_or(self.rest.len());
        self.rest = &self.rest[words..];
        let mut value = 0;
        while let [c @ b'0'..=b'9', rest @ ..] = self.rest
            && value <= 99999999999999999
        {
            value = value * 10 + usize::from(*c - b'0');
            self.rest = rest;
        }
        value
    }

    // The low 32 bits of the next number.
    pub fn word(&mut self) -> u32 {
        (self.number() % 4294967296) as u32
    }
}
