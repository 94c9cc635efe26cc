// Moves and comparisons of bytes in lent slices, over any width, and numbers as bytes.
#![tactic(auto)]

pub mod scan;

ghost use Rattle.std.specs.Prelude.{◌≡◌, ◌+◌, ◌-◌, ◌≤◌, length, replicate};
ghost use Rattle.lists.specs.Text.{same};
ghost use Rattle.lists.specs.Part.{part, over};
ghost use Rattle.lists.specs.BigEndian.{number, spelled};

// Whether the two slices hold the same bytes.
// kept: (a) this, `clear` and the shifts are std's methods, and promise in the words of specs/ (`same`, `over`, `part`) what theorems and the rooms above cite.
pub fn same_bytes(left: &[u8], right: &[u8]) -> bool
    ensures { result ≡ same left.now right.now }
{
    left == right
}

// All of `source` is written from `at` on.
// kept: (a) std's copy_from_slice would have the archive for C ask its caller for memmove, which no call of it needs.
pub fn copy_to<T: Copy>(elements: &mut [T], at: usize, source: &[T])
    requires { at + length source.now ≤ length elements.old }
    ensures { elements.new ≡ over at source.now elements.old }
{
    for i in 0..source.len() {
        elements[at + i] = source[i];
    }
}

// `count` zero bytes from `at` on.
pub fn clear(bytes: &mut [u8], at: usize, count: usize)
    requires { at + count ≤ length bytes.old }
    ensures { bytes.new ≡ over at (replicate count 0) bytes.old }
{
    bytes[at..at + count].fill(0);
}

// The elements from `start` up to `end` are copied to the place `by` further on.
pub fn shift_up<T: Copy>(elements: &mut [T], start: usize, end: usize, by: usize)
    requires { (start ≤ end) × (end + by ≤ length elements.old) }
    ensures { elements.new ≡ over (start + by) (part start (end - start) elements.old) elements.old }
{
    elements.copy_within(start..end, start + by);
}

// The `count` elements that stand `by` behind `at` are copied to `at`.
pub fn shift_down<T: Copy>(elements: &mut [T], at: usize, count: usize, by: usize)
    requires { at + by + count ≤ length elements.old }
    ensures { elements.new ≡ over at (part (at + by) count elements.old) elements.old }
{
    elements.copy_within(at + by..at + by + count, at);
}

// The number that the `width` bytes from `at` on spell.
pub fn get_number(bytes: &[u8], at: usize, width: usize) -> u32
    requires { (at + width ≤ length bytes.now) × (width ≤ 4) }
    ensures { result ≡ number (part at width bytes.now) }
{
    let mut n: u32 = 0;
    for byte in &bytes[at..at + width] {
        n = n * 256 + *byte as u32;
    }
    n
}

// The last `width` bytes of the value are written from `at` on.
pub fn put_number(bytes: &mut [u8], at: usize, width: usize, value: u32)
    requires { at + width ≤ length bytes.old }
    ensures { bytes.new ≡ over at (spelled width value) bytes.old }
{
    let mut rest = value;
    for i in (0..width).rev() {
        bytes[at + i] = (rest % 256) as u8;
        rest /= 256;
    }
}
