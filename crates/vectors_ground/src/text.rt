// How a line of the input is read. In a vector `%` and two hexadecimal digits stand for a byte, `&` for a byte b that the reader
// chooses, and `*` and a byte for 65532 of it: with a few around them they are as many as a dossier may have.

// The vector that a line stands for, from the room's start on; its size.
fn plain(line: &[u8], b: u8, room: &mut [u8]) -> usize {
    let mut end = 0;
    let mut rest = line;
    // kept: a turn takes from one to three bytes, so no iterator of the library gives its pieces
    while let [mark, tail @ ..] = rest {
        let next = script_text::at(tail, 0);
        (end, rest) = match *mark {
            b'%' => {
                let byte = script_text::hex_byte(next, script_text::at(tail, 1));
                (
                    script_text::pad(room, end, 1, byte),
                    script_text::after(tail, 1),
                )
            }
            b'*' => (
                script_text::pad(room, end, 65532, next),
                script_text::after(tail, 0),
            ),
            b'&' => (script_text::pad(room, end, 1, b), tail),
            _ => (script_text::pad(room, end, 1, *mark), tail),
        };
    }
    end
}

// The same vector, in the room.
pub fn vector<'a>(line: &[u8], byte: u8, room: &'a mut [u8]) -> &'a [u8] {
    let n = plain(line, byte, room);
    script_text::front(room, n)
}
