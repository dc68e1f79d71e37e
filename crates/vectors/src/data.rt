// The files that the program runs on.
ghost use Rattle.std.specs.Prelude.{◌≡◌, ◌≤◌, length, IfSome};

use std::io::Read;
use std::rt::Files;
use std::{fs, str};

// Zeros for the longest file.
pub fn blank_room() -> [u8; 524288]
    ensures { length result ≡ 524288 }
{
    [0; 524288]
}

// A file's bytes, put at the start of a lent room: all of them, or as many as it has room for, or those before a read that fails. None where the
// file cannot be opened.
pub fn read<'a>(rt: &impl Files, name: &[u8], room: &'a mut [u8]) -> Option<&'a [u8]>
    ensures { IfSome result (λ text. length text.now ≤ length room.old) }
{
    let path = str::from_utf8(name).ok()?;
    let mut file = fs::open(rt, path).ok()?;
    let mut done = 0;
    // By hand: std's reads of a whole file fill a Vec, and read_exact fails where the file is shorter than the room.
    while done < room.len() {
        match file.read(&mut room[done..]) {
            Ok(0) | Err(_) => break,
            Ok(n) => done += n,
        }
    }
    Some(&room[..done])
}
