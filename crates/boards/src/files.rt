// Files. A file's name is text; bytes that are no text name none.
use std::fs::File;
use std::io::{Read, Stdin, Write};
use std::{fs, io, str};

// What a file gave: so many bytes, or that it cannot be read.
#[derive(Clone, Copy)]
pub enum Loaded {
    Bytes(usize),
    Unreadable,
}

// The file of that name, to be read.
fn open_read(rt: HostRuntime, path: &[u8]) -> Option<File> {
    let name = str::from_utf8(path).ok()?;
    fs::open(&rt, name).ok()
}

// The file of that name, emptied, or a new one.
fn open_overwrite(rt: HostRuntime, path: &[u8]) -> Option<File> {
    let name = str::from_utf8(path).ok()?;
    fs::create(&rt, name).ok()
}

// The file of one name takes another.
fn rename(rt: HostRuntime, from: &[u8], to: &[u8]) -> Option<()> {
    let old = str::from_utf8(from).ok()?;
    let new = str::from_utf8(to).ok()?;
    fs::rename(&rt, old, new).ok()
}

// The file of that name is removed, if it can be.
fn unlink(rt: HostRuntime, path: &[u8]) -> Option<()> {
    let name = str::from_utf8(path).ok()?;
    fs::remove_file(&rt, name).ok()
}

// The file's bytes to buf, as many as it takes.
pub fn load(rt: HostRuntime, path: &[u8], buf: &mut [u8]) -> Loaded {
    match open_read(rt, path) {
        Some(file) => taken(file, buf),
        None => Loaded::Unreadable,
    }
}

// The first read tells whether it can be read, as a folder cannot. The file is closed.
fn taken(mut file: File, buf: &mut [u8]) -> Loaded {
    let Ok(n) = file.read(buf) else {
        return Loaded::Unreadable;
    };
    if n == 0 {
        return Loaded::Bytes(0);
    }
    let more = script_text::read_full(&mut file, &mut buf[n..]);
    Loaded::Bytes(n + more)
}

// The four parts one behind the other; an error where not all is written.
fn put(
    file: &mut File,
    heading: &[u8],
    register: &[u8],
    book: &[u8],
    table: &[u8],
) -> io::Result<()> {
    file.write_all(heading)?;
    file.write_all(register)?;
    file.write_all(book)?;
    file.write_all(table)?;
    file.sync_all()
}

// Whether all is written. The file is closed.
fn is_put(mut file: File, heading: &[u8], register: &[u8], book: &[u8], table: &[u8]) -> bool {
    put(&mut file, heading, register, book, table).is_ok()
}

// A file of four parts, or none: they go to the file `part` first, which then takes the name. So what stood there stays whole until all is written.
pub fn store(
    rt: HostRuntime,
    path: &[u8],
    part: &[u8],
    heading: &[u8],
    register: &[u8],
    book: &[u8],
    table: &[u8],
) -> bool {
    let Some(file) = open_overwrite(rt, part) else {
        return false;
    };
    if is_put(file, heading, register, book, table) {
        return rename(rt, part, path).is_some();
    }
    unlink(rt, part);
    false
}

// ---- A script's lines, one read a byte: so each is done as it comes, and what follows it is left to whoever reads on.

// Where a script's lines come from. A file that cannot be opened cannot be read.
#[derive(Drop)]
pub enum Script {
    Input(Stdin),
    Open(File),
    Missing,
}

// The script that a name gives; - is standard input.
pub fn opened(rt: HostRuntime, name: &[u8]) -> Script {
    if lists::same_bytes(name, b"-") {
        return Script::Input(rt.stdin());
    }
    match open_read(rt, name) {
        Some(file) => Script::Open(file),
        None => Script::Missing,
    }
}

#[derive(Clone, Copy)]
pub enum Line {
    Whole(usize),
    Long,
    End,
    Failed,
}

#[derive(Clone, Copy)]
enum Byte {
    Is(u8),
    End,
    Failed,
}

// A read of nothing is the end.
fn byte_of(got: io::Result<usize>, byte: u8) -> Byte {
    match got {
        Ok(0) => Byte::End,
        Ok(_) => Byte::Is(byte),
        Err(_) => Byte::Failed,
    }
}

fn next_byte(script: &mut Script) -> Byte {
    let mut one = [0u8; 1];
    let got = match script {
        Script::Input(input) => input.read(&mut one),
        Script::Open(file) => file.read(&mut one),
        Script::Missing => return Byte::Failed,
    };
    byte_of(got, one[0])
}

// The rest of a line that is too long is read and left out. A line of over four billion bytes counts as several.
fn skip(script: &mut Script) {
    let mut left: u32 = 4294967295;
    while 0 < left {
        left -= 1;
        match next_byte(script) {
            Byte::Is(b) => {
                if b == b'\n' {
                    return;
                }
            }
            Byte::End => return,
            Byte::Failed => return,
        }
    }
}

// A last line may lack its LF.
fn last(n: usize) -> Line {
    if n == 0 {
        return Line::End;
    }
    Line::Whole(n)
}

// The next line to buf, without its LF.
pub fn read_line(script: &mut Script, buf: &mut [u8]) -> Line {
    let mut n = 0;
    while n < buf.len() {
        match next_byte(script) {
            Byte::Is(b) => {
                if b == b'\n' {
                    return Line::Whole(n);
                }
                buf[n] = b;
                n += 1;
            }
            Byte::End => return last(n),
            Byte::Failed => return Line::Failed,
        }
    }
    skip(script);
    Line::Long
}
