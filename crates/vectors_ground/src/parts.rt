// A vector of several parts has a circumflex between them.
ghost use Rattle.std.specs.Prelude.{◌<◌};

pub fn head(vector: &[u8]) -> &[u8] {
    script_text::before(vector, b'^')
}

pub fn tail(vector: &[u8]) -> &[u8] {
    script_text::behind(vector, b'^')
}

// A part that is a number.
pub fn count(vector: &[u8]) -> usize
    ensures { result < 4294967296 }
{
    match field_types::read_number(vector, 9) {
        Some(n) => n as usize,
        None => 0,
    }
}

// Two parts that are a number: its thousands, and the rest.
pub fn large(vector: &[u8]) -> u32 {
    let n = count(head(vector)) * 1000 + count(tail(vector));
    (n % 4294967296) as u32
}
