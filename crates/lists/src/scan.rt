// Where a test of a byte first holds: byte by byte, by eight, or by blocks of sixteen, which compile to vector instructions.
ghost use Rattle.std.specs.Prelude.{◌≡◌, false, ◌≤◌, length};
ghost use Rattle.lists.specs.Scan.{Clear, IsFirst};

// Byte by byte: where the test first holds, or the length.
fn first<F: Fn(u8) -> bool + Copy>(bytes: &[u8], test: F) -> usize
    requires { F.IsAlwaysCallable test }
    ensures { IsFirst (F.post test) bytes.now result }
{
    for (i, b) in bytes.iter().enumerate() {
        if test(*b) {
            return i;
        }
    }
    bytes.len()
}

// Where the test first holds, or the length, for a byte that is near: by eight, each compiled without a loop.
pub fn find_near<F: Fn(u8) -> bool + Copy>(bytes: &[u8], test: F) -> usize
    requires { F.IsAlwaysCallable test }
    ensures { IsFirst (F.post test) bytes.now result }
{
    let (blocks, rest) = bytes.as_chunks::<8>();
    for (i, block) in blocks.iter().enumerate() {
        let k = first(block, test);
        if k < 8 {
            return 8 * i + k;
        }
    }
    8 * blocks.len() + first(rest, test)
}

// Whether the test holds of one of sixteen bytes. No branch in the loop, so that it compiles to a few vector instructions.
fn any_of<F: Fn(u8) -> bool + Copy>(block: &[u8; 16], test: F) -> bool
    requires { F.IsAlwaysCallable test }
    ensures { result ≡ false → Clear (F.post test) block.now 16 }
{
    let mut any = false;
    for b in block {
        any = any | test(*b);
    }
    any
}

// How many bytes stand in whole blocks before the first block in which the test holds of a byte.
fn clear_blocks<F: Fn(u8) -> bool + Copy>(bytes: &[u8], test: F) -> usize
    requires { F.IsAlwaysCallable test }
    ensures within { result ≤ length bytes.now }
    ensures clear { Clear (F.post test) bytes.now result }
{
    let (blocks, _) = bytes.as_chunks::<16>();
    for (i, block) in blocks.iter().enumerate() {
        if any_of(block, test) {
            return 16 * i;
        }
    }
    16 * blocks.len()
}

// The same as `find_near`, for a byte that is far off: by blocks, then byte by byte.
pub fn find_far<F: Fn(u8) -> bool + Copy>(bytes: &[u8], test: F) -> usize
    requires { F.IsAlwaysCallable test }
    ensures { IsFirst (F.post test) bytes.now result }
{
    let at = clear_blocks(bytes, test);
    at + first(&bytes[at..], test)
}
